//! What a service prints of its books at the end.

ghost use Rattle.std.specs.Prelude.{◌≡◌, [], ◌++◌, if◌then◌else◌, IfOk, OnOk};
ghost use Rattle.std.specs.List.{flat_map};
ghost use Rattle.output_text.specs.Printed.{output_line};
ghost use Rattle.service.specs.Balances.{balance_lines, balances_told};

use common_types::Name;
use ilp_addr::Moment;
use output_text::put_answer;
use std::alloc::{AllocError, Global};
use tenant_core::{Book, Command};

/// The answer of each of these books to the command `balances`, for tenants of these names, if `wanted`. Fails only if
/// it is out of memory.
pub fn balance_lines(
    alloc: Global,
    wanted: bool,
    names: &[Name],
    books: Vec<(Book, u64)>,
) -> Result<Vec<u8>, AllocError>
    ensures { IfOk result (λ text. text.items ≡ (if wanted then balance_lines names.now books.items else [])) }
{
    let mut text = Vec::new(alloc);
    if wanted {
        put_all(alloc, names, books, &mut text)?;
    }
    Ok(text)
}

fn put_all(
    alloc: Global,
    names: &[Name],
    books: Vec<(Book, u64)>,
    text: &mut Vec<u8>,
) -> Result<(), AllocError>
    ensures { OnOk result (text.new.items ≡ text.old.items ++ balance_lines names.now books.items) }
{
    for entry in books {
        put_balances(alloc, names, entry.0, text)?;
    }
    Ok(())
}

#[tactic(auto, unfolding(output_text::specs::Printed::output_line))]
fn put_balances(
    alloc: Global,
    names: &[Name],
    book: Book,
    text: &mut Vec<u8>,
) -> Result<(), AllocError>
    ensures { OnOk result (text.new.items ≡ text.old.items ++ output_line names.now (balances_told book)) }
{
    let Some(moment) = Moment::new(0) else {
        unreachable!();
    };
    let tenant = book.tenant();
    let mut book = book;
    let Ok(answer) = book.command(alloc, &Command::Balances, moment) else {
        return Err(AllocError);
    };
    put_answer(names, tenant, text, &Ok(answer))
}
