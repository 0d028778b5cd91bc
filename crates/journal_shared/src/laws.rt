//! A law of journals that are shared, the contract of a function that does nothing.

ghost use denote.Param.Send.{IsSync};
ghost use Rattle.journal_shared.specs.contracts.shared.SharedJournal as SharedJournal;
ghost use Rattle.log_folder.specs.contracts.disk_file.DiskFile as DiskFile;
ghost use Rattle.log_folder.specs.contracts.disk_file.DiskFileLogFile.TheImpl as DiskLog;

use one_list::Run;

/// Threads may share a journal in a file on disk. Call it ahead of a call that hands them the journal: what that call requires is
/// proved by it.
pub fn journals_are_shared<J: Run>()
    ensures { IsSync (SharedJournal.the_row DiskFile.the_row J.row DiskLog.ghosts J.Run) }
{}
