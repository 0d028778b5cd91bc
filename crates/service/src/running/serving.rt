//! The service: all its workers, and what they counted.

ghost use Rattle.std.specs.Prelude.{ℕ, ◌≡◌, ◌+◌, ◌≤◌, ◌<◌, ◌⊎◌, ◌++◌, [], length, map, vec_len, vec_capacity, true, false, is_ok, is_some, option_map, slice_index_or, All, IfErr, IfOk, IfSome, OnErr, OnOk};
ghost use Rattle.std.specs.Io.KnownBytes.{Appends};
ghost use Rattle.std.specs.List.{sum_by};
ghost use Rattle.std.specs.Option.{option_to_list};
ghost use Rattle.allotment.specs.Loans.{max_places};
ghost use Rattle.books_shared.specs.Gathers.{max_workers};
ghost use Rattle.books_shared.specs.Begun.{AreNumbered};
ghost use Rattle.journal_shared.specs.Kept.{BeginsLog};
ghost use Rattle.log_folder.specs.Disk.{disk_may_leave, disk_seen};
ghost use Rattle.tenant_core.specs.Limits.{max_tenants};
ghost use Rattle.std.specs.Fmt.{decimal};
ghost use Rattle.meters.specs.Seats.{count_of, max_splits};
ghost use Rattle.meters.specs.declared.kind.Kind as meter;
ghost use Rattle.service.specs.Answering.{HasWorked, IsUncounted, IsNewDesk};
ghost use Rattle.service.specs.Counted.{HasToldCounts, HasToldCountsIn, HaveCounted, without_door};
ghost use Rattle.service.specs.Ending.{EndsTold, ungathered_end, ungathered_line};
ghost use Rattle.service.specs.Extents.{desk_count};
ghost use Rattle.service.specs.Hosting.{HasStayed, IsIdle, seats_in};
ghost use Rattle.service.specs.Operating.{HaveOperated};
ghost use Rattle.service.specs.Served.{served_line, lines_upto};

use crate::connection::door::Door;
use crate::filing::disk::Disk;
use crate::filing::scribe::Scribe;
use crate::host::callers::{Beside, Callers, Porter};
use crate::host::hosting::{Host, HostDoor};
use crate::host::letters::Letters;
use crate::office::Office;
use crate::operators::answering::{OperatorDoor, Operators};
use crate::running::auditing::audit_told;
use crate::running::balances::balance_lines;
use crate::running::ended::{Ended, work_to_the_end};
use crate::running::ending::{ServeFault, end_of, ungathered_end};
use crate::running::finishing::{Last, finish, followed_by, with_more};
use crate::running::meeting::Meeting;
use crate::running::opening::{Begun, Start, open_office};
use crate::running::plan::{Plan, desk_count};
use crate::system::System;
use crate::worker::Worker;
use crate::worker::desk::Desk;
use books_shared::{GatherFault, Share};
use common_types::Name;
use floor_core::Slot;
use meters::{Kind, MeterSeat, Totals};
use one_list::{Opened, Run};
use std::alloc::{AllocError, Global};
use std::io::Write;
use std::marker::Brand;
use std::net::{Net, TcpListener, TcpStream};
use std::sync::Wait;
use std::thread;
use std::thread::{Threads, join_mut};
use std::time::Instant;
use tenant_core::Period;
use workers::{Lane, StartFault, run_workers};

/// What workers and who answers operators leave: what each has counted in books, the periods that they closed, where the run is
/// audited and there was memory to put them together, and whether a worker could not accept a connection.
#[derive(Drop)]
pub struct Done<J: Run> {
    pub shares: Vec<Share<J>>,
    pub periods: Option<Vec<Period>>,
    pub failed: bool,
}

// A worker for each share, with a seat of its own.
fn hired<
    'a,
    H: Wait + Net<Listener = TcpListener, Stream = TcpStream> + std::time::Clock,
    C: workers::Clock,
    J: Run,
>(
    system: &'a System<'_, H, C>,
    office: &'a Office<J>,
    first: &mut MeterSeat,
    mut shares: Vec<Share<J>>,
    listener: &'a TcpListener,
) -> Result<Vec<Worker<'a, H, C, J>>, AllocError>
    requires here { first.old.meters ≡ office.now.meters.id }
    requires first { first.old.first ≡ true }
    requires whole { first.old.splits ≡ 0 }
    requires few { vec_len shares ≤ max_workers }
    requires new { All IsUncounted shares.items }
    ensures here { first.new.meters ≡ office.now.meters.id }
    ensures first { first.new.first ≡ true }
    ensures joins { first.new.joins ≡ first.old.joins }
    ensures counts { first.new.counts ≡ first.old.counts }
    ensures split { IfOk result (λ lanes. vec_len lanes ≡ first.new.splits) }
    ensures each { IfOk result (λ lanes. vec_len lanes ≡ vec_len shares) }
    ensures new { IfOk result (λ lanes. All (λ lane. IsNewDesk lane.desk) lanes.items) }
    ensures office { IfOk result (λ lanes. All (λ lane. lane.office.now ≡ office.now) lanes.items) }
    ensures clock { IfOk result (λ lanes. All (λ lane. lane.clock.now ≡ system.now.clock.now) lanes.items) }
{
    let alloc = system.alloc;
    let mut lanes = Vec::with_capacity(alloc, shares.len())?;
    while let Some(share) = shares.pop() {
        let slot = Slot::new(alloc)?;
        let desk = Desk::new(alloc, share, office.meters.split(first), slot);
        lanes.push_reserved(Worker::new(system, office, listener, desk));
    }
    Ok(lanes)
}

// What the workers leave, with what others left: what their seats have counted is the first one's from then on.
fn dismissed<H, C, J: Run>(
    office: &Office<J>,
    first: &mut MeterSeat,
    lanes: Vec<Worker<'_, H, C, J>>,
    others: Done<J>,
) -> Done<J>
    requires here { first.old.meters ≡ office.now.meters.id }
    requires same { All (λ lane. lane.office.now ≡ office.now) lanes.items }
    requires room { vec_len others.shares + vec_len lanes ≤ vec_capacity others.shares }
    ensures here { first.new.meters ≡ office.now.meters.id }
    ensures first { first.new.first ≡ first.old.first }
    ensures splits { first.new.splits ≡ first.old.splits }
    ensures joined { first.new.joins ≡ first.old.joins + length lanes.entry.items }
    ensures each { vec_len result.shares ≡ vec_len others.shares + length lanes.entry.items }
    ensures shares { result.shares.items ≡ others.shares.items ++ map (λ lane. lane.desk.share) lanes.entry.items }
    ensures counts { (tenant : ℕ) (kind : meter.Kind)
        → count_of tenant kind first.new ≡ count_of tenant kind first.old
        + sum_by (λ lane. count_of tenant kind lane.desk.seat) lanes.entry.items }
{
    let Done {
        mut shares,
        mut periods,
        mut failed,
    } = others;
    for lane in lanes {
        let (desk, broken) = lane.into_desk();
        let Desk {
            seat,
            share,
            periods: closed,
            ..
        } = desk;
        office.meters.join(first, seat);
        shares.push_reserved(share);
        periods = with_more(periods, closed);
        failed |= broken;
    }
    Done {
        shares,
        periods,
        failed,
    }
}

// Who writes the statements, if they are kept.
fn scribe_at<'a, H, C, J: Run>(
    system: &'a System<'_, H, C>,
    office: &'a Office<J>,
    is_audited: bool,
) -> Option<Scribe<'a, H, J>> {
    if office.filing.is_none() {
        return None;
    }
    Some(Scribe::new(system.handle, system.alloc, office, is_audited))
}

// The periods that the one who writes statements has kept for the audit.
fn written_by<H, J: Run>(alloc: Global, scribe: Option<Scribe<'_, H, J>>) -> Vec<Period> {
    match scribe {
        Some(scribe) => scribe.into_periods(),
        None => Vec::new(alloc),
    }
}

// What who answered operators leaves, if anyone did, its share in that room, with these periods: what its seat has counted is the
// first one's from then on.
fn relieved<H, C, J: Run>(
    office: &Office<J>,
    first: &mut MeterSeat,
    operators: Option<Porter<'_, H, Operators<'_, H, C, J>>>,
    room: Vec<Share<J>>,
    written: Vec<Period>,
) -> Done<J>
    requires here { first.old.meters ≡ office.now.meters.id }
    requires same { IfSome operators (λ porter. porter.answering.office.now ≡ office.now) }
    requires empty { room.items ≡ [] }
    requires room { 1 ≤ vec_capacity room }
    ensures here { first.new.meters ≡ office.now.meters.id }
    ensures first { first.new.first ≡ first.old.first }
    ensures splits { first.new.splits ≡ first.old.splits }
    ensures joined { first.new.joins ≡ first.old.joins + length (option_to_list operators.entry) }
    ensures each { vec_len result.shares ≡ length (option_to_list operators.entry) }
    ensures shares { result.shares.items ≡ map (λ porter. porter.answering.desk.share) (option_to_list operators.entry) }
    ensures room { vec_capacity result.shares ≡ vec_capacity room }
    ensures counts { (tenant : ℕ) (kind : meter.Kind)
        → count_of tenant kind first.new ≡ count_of tenant kind first.old
        + sum_by (λ porter. count_of tenant kind porter.answering.desk.seat) (option_to_list operators.entry) }
{
    let mut shares = room;
    let mut periods = Some(written);
    if let Some(porter) = operators {
        let Porter { answering, .. } = porter;
        let Desk {
            seat,
            share,
            periods: closed,
            ..
        } = answering.into_desk();
        office.meters.join(first, seat);
        shares.push_reserved(share);
        periods = with_more(periods, closed);
    }
    Done {
        shares,
        periods,
        failed: false,
    }
}

// Where the host answers: it reads the meters through a seat of its own, and has room for those who wait.
fn host_at<'a, H, C, J: Run>(
    system: &'a System<'_, H, C>,
    office: &'a Office<J>,
    first: &mut MeterSeat,
    door: Option<HostDoor<'a>>,
) -> Result<Option<Porter<'a, H, Host<'a, H, J>>>, AllocError>
    requires here { first.old.meters ≡ office.now.meters.id }
    requires first { first.old.first ≡ true }
    requires few { first.old.splits < max_splits }
    ensures idle { IfOk result (λ porter. IsIdle office.now.meters.id (option_map (λ porter. porter.answering.seat) porter)) }
    ensures here { first.new.meters ≡ first.old.meters }
    ensures first { first.new.first ≡ true }
    ensures splits { IfOk result (λ porter. first.new.splits ≡ first.old.splits + seats_in (option_map (λ porter. porter.answering.seat) porter)) }
    ensures joins { first.new.joins ≡ first.old.joins }
    ensures counts { first.new.counts ≡ first.old.counts }
{
    let Some(door) = door else {
        return Ok(None);
    };
    let (handle, alloc) = (system.handle, system.alloc);
    let (callers, letters) = (Callers::new(alloc)?, Letters::new(alloc)?);
    let listener = door.listener();
    let seat = office.meters.split(first);
    let answering = Host::new(handle, alloc, office, door, seat);
    Ok(Some(Porter {
        handle,
        alloc,
        listener,
        packets: &office.door,
        answering,
        callers,
        letters,
    }))
}

// The door of the operators, if there is one, with one of the shares.
fn seated_at<'a, J: Run>(
    door: Option<OperatorDoor<'a>>,
    shares: &mut Vec<Share<J>>,
) -> Option<(OperatorDoor<'a>, Share<J>)>
    requires some { 1 ≤ vec_len shares.old }
    ensures door { is_some result ≡ is_some door.entry }
    ensures many { vec_len shares.old ≡ vec_len shares.new + length (option_to_list result) }
    ensures shares { shares.old.items ≡ shares.new.items ++ option_to_list (option_map (λ seated. seated.1) result) }
{
    let door = door?;
    let share = shares.pop()?;
    Some((door, share))
}

// Where operators are answered: at a desk of its own, with room for those who wait.
fn operators_at<'a, H, C: workers::Clock, J: Run>(
    system: &'a System<'_, H, C>,
    office: &'a Office<J>,
    first: &mut MeterSeat,
    seated: Option<(OperatorDoor<'a>, Share<J>)>,
) -> Result<Option<Porter<'a, H, Operators<'a, H, C, J>>>, AllocError>
    requires here { first.old.meters ≡ office.now.meters.id }
    requires first { first.old.first ≡ true }
    requires few { first.old.splits < max_splits }
    requires new { IfSome (option_map (λ seated. seated.1) seated) IsUncounted }
    ensures there { IfOk result (λ porter. is_some porter ≡ is_some seated.entry) }
    ensures new { IfOk result (λ porter. IfSome porter (λ porter. IsNewDesk porter.answering.desk)) }
    ensures office { IfOk result (λ porter. IfSome porter (λ porter. porter.answering.office.now ≡ office.now)) }
    ensures clock { IfOk result (λ porter. IfSome porter (λ porter. porter.answering.clock.now ≡ system.now.clock.now)) }
    ensures here { first.new.meters ≡ first.old.meters }
    ensures first { first.new.first ≡ true }
    ensures splits { IfOk result (λ porter. first.new.splits ≡ first.old.splits + length (option_to_list porter)) }
    ensures joins { first.new.joins ≡ first.old.joins }
    ensures counts { first.new.counts ≡ first.old.counts }
{
    let Some((door, share)) = seated else {
        return Ok(None);
    };
    let (handle, alloc) = (system.handle, system.alloc);
    let (callers, letters) = (Callers::new(alloc)?, Letters::new(alloc)?);
    let slot = Slot::new(alloc)?;
    let desk = Desk::new(alloc, share, office.meters.split(first), slot);
    let answering = Operators::new(system, office, desk);
    Ok(Some(Porter {
        handle,
        alloc,
        listener: door.listener(),
        packets: &office.door,
        answering,
        callers,
        letters,
    }))
}

// Takes back the seat of who answered the host, at which nothing was counted.
fn leaves<H, J: Run>(
    office: &Office<J>,
    first: &mut MeterSeat,
    porter: Option<Porter<'_, H, Host<'_, H, J>>>,
)
    requires here { first.old.meters ≡ office.now.meters.id }
    requires idle { IsIdle office.now.meters.id (option_map (λ porter. porter.answering.seat) porter) }
    ensures here { first.new.meters ≡ first.old.meters }
    ensures first { first.new.first ≡ first.old.first }
    ensures splits { first.new.splits ≡ first.old.splits }
    ensures joins { first.new.joins ≡ first.old.joins + seats_in (option_map (λ porter. porter.answering.seat) porter.entry) }
    ensures counts { (tenant : ℕ) (kind : meter.Kind) → count_of tenant kind first.new ≡ count_of tenant kind first.old }
{
    if let Some(porter) = porter {
        let Porter { answering, .. } = porter;
        office.meters.join(first, answering.into_seat());
    }
}

// Whether a thread can be started.
fn can_start<R: Threads + Wait + Sync>(rt: &R) -> bool {
    thread::scope(
        thread::scope_env(),
        rt,
        |scope| scope.spawn(move || {}).is_ok(),
    )
}

// Stays, if there is one who does.
fn stay<B: Beside>(other: &mut Option<B>)
    ensures { HasStayed B.stays other.old other.new }
{
    if let Some(other) = other {
        other.stay();
    }
}

// Lets each lane work on its own thread, and up to three others stay beside them, each on its own thread, until all lanes have
// ended. None of them works if there is no thread for the others. If there are too few, one of these stays after another.
fn run_beside<
    H: Threads + Wait + std::time::Clock + Sync,
    W: Lane,
    A: Beside,
    B: Beside + Send,
    C: Beside + Send,
>(
    handle: &H,
    door: &Door,
    lanes: &mut [W],
    one: &mut Option<A>,
    other: &mut Option<B>,
    third: &mut Option<C>,
) -> Result<(), StartFault>
    ensures ok { OnOk result ((i : ℕ) (d : W) → i < length lanes.old
        → W.works (slice_index_or lanes.old i d) (slice_index_or lanes.new i d)) }
    ensures err { OnErr result (lanes.new ≡ lanes.old) }
    ensures one { HasStayed A.stays one.old one.new ⊎ (one.new ≡ one.old) }
    ensures other { HasStayed B.stays other.old other.new ⊎ (other.new ≡ other.old) }
    ensures third { HasStayed C.stays third.old third.new ⊎ (third.new ≡ third.old) }
{
    if one.is_none() && other.is_none() && third.is_none() {
        return run_workers(handle, lanes);
    }
    if !can_start(handle) {
        return Err(StartFault);
    }
    let meeting = Meeting::new();
    let (started, ()) = join_mut(
        handle,
        &mut || {
            let (started, ended) = work_to_the_end(handle, lanes, meeting.attend(handle));
            door.desert(ended);
            started
        },
        &mut || {
            if let Err(missed) = meeting.attend(handle) {
                door.desert(Ended::before_it_began(missed));
            }
            let mut rest = || {
                join_mut(handle, &mut || stay(third), &mut || stay(one));
            };
            join_mut(handle, &mut || stay(other), &mut rest);
        },
    );
    started
}

// Lets all workers serve, on threads, and those who answer at the other doors until they have ended.
fn work_all<
    J: Run + Send + Sync,
    H: Threads
        + Wait
        + Net<Listener = TcpListener, Stream = TcpStream>
        + std::time::Clock
        + Disk
        + Sync,
    C: workers::Clock + Sync,
>(
    system: &System<'_, H, C>,
    office: &Office<J>,
    lanes: &mut [Worker<'_, H, C, J>],
    host: &mut Option<Porter<'_, H, Host<'_, H, J>>>,
    operators: &mut Option<Porter<'_, H, Operators<'_, H, C, J>>>,
    scribe: &mut Option<Scribe<'_, H, J>>,
) -> Result<(), ServeFault>
    requires new { All (λ lane. IsNewDesk lane.desk) lanes.old }
    requires office { All (λ lane. lane.office.now ≡ office.now) lanes.old }
    requires clock { All (λ lane. lane.clock.now ≡ system.now.clock.now) lanes.old }
    requires seated { IfSome operators.old (λ porter. (porter.answering.office.now ≡ office.now) × (porter.answering.clock.now ≡ system.now.clock.now)) }
    ensures office { All (λ lane. lane.office.now ≡ office.now) lanes.new }
    ensures worked { OnOk result (All (λ lane. HasWorked (C.gives system.now.clock.now) office.now lane.desk) lanes.new) }
    ensures host { option_map (λ porter. porter.answering.seat) host.new ≡ option_map (λ porter. porter.answering.seat) host.old }
    ensures operated { HaveOperated (C.gives system.now.clock.now) office.now (option_map (λ porter. porter.answering.desk) operators.old)
        (option_map (λ porter. porter.answering.desk) operators.new) }
    ensures seated { IfSome operators.new (λ porter. porter.answering.office.now ≡ office.now) }
{
    meters::laws::meters_are_shared();
    books_shared::laws::books_are_shared::<J>();
    books_shared::laws::networks_cross();
    journal_shared::laws::journals_are_shared::<J>();
    match run_beside(system.handle, &office.door, lanes, host, operators, scribe) {
        Ok(()) => Ok(()),
        Err(_) => Err(ServeFault::Device),
    }
}

/// Lets a worker for each share serve connections, and joins them all. One of the shares is for who answers operators, if
/// operators have a door.
pub fn run_all<
    'a,
    H: Threads
        + Wait
        + Net<Listener = TcpListener, Stream = TcpStream>
        + std::time::Clock
        + Disk
        + Sync,
    C: workers::Clock + Sync,
    J: Run + Send + Sync,
>(
    system: &'a System<'_, H, C>,
    office: &'a Office<J>,
    first: &mut MeterSeat,
    mut shares: Vec<Share<J>>,
    doors: Doors<'a>,
    is_audited: bool,
) -> Result<Done<J>, ServeFault>
    requires here { first.old.meters ≡ office.now.meters.id }
    requires first { first.old.first ≡ true }
    requires whole { first.old.splits ≡ 0 }
    requires none { first.old.joins ≡ 0 }
    requires nothing { (tenant : ℕ) (kind : meter.Kind) → count_of tenant kind first.old ≡ 0 }
    requires some { 1 ≤ vec_len shares }
    requires few { vec_len shares ≤ max_workers }
    requires new { All IsUncounted shares.items }
    ensures here { first.new.meters ≡ office.now.meters.id }
    ensures joined { OnOk result (first.new.joins ≡ first.new.splits) }
    ensures each { IfOk result (λ done. vec_len done.shares ≡ vec_len shares) }
    ensures first { first.new.first ≡ true }
    ensures counted { IfOk result (λ done. HaveCounted (C.gives system.now.clock.now) office.now
        (without_door (is_some doors.entry.operators) (vec_len shares)) (is_some doors.entry.operators) done.shares.items
        (λ tenant kind. count_of tenant kind first.new)) }
{
    let alloc = system.alloc;
    let room = Vec::with_capacity(alloc, shares.len())?;
    let seated = seated_at(doors.operators, &mut shares);
    let mut lanes = hired(system, office, first, shares, doors.packets)?;
    let mut host = host_at(system, office, first, doors.host)?;
    let mut operators = operators_at(system, office, first, seated)?;
    let mut scribe = scribe_at(system, office, is_audited);
    office.door.set_most(lanes.len() as u64);
    work_all(
        system,
        office,
        lanes.as_mut_slice(),
        &mut host,
        &mut operators,
        &mut scribe,
    )?;
    leaves(office, first, host);
    let written = written_by(alloc, scribe);
    let others = relieved(office, first, operators, room, written);
    Ok(dismissed(office, first, lanes, others))
}

// A line for each tenant: how many packets and commands were answered with which status, and how often its peers gave no
// answer.
fn lines_of(alloc: Global, names: &[Name], totals: &Totals) -> Result<Vec<u8>, AllocError>
    requires { length names.now ≤ totals.now.tenants }
    ensures { IfOk result (λ text. text.items ≡ lines_upto (length names.now) names.now totals.now) }
{
    let mut text = Vec::new(alloc);
    for tenant in 0..names.len() {
        put_line(alloc, &mut text, names[tenant].as_bytes(), tenant, totals)?;
    }
    Ok(text)
}

#[tactic(auto, unfolding(crate::specs::Served::served_line))]
fn put_line(
    alloc: Global,
    text: &mut Vec<u8>,
    name: &[u8],
    tenant: usize,
    totals: &Totals,
) -> Result<(), AllocError>
    requires { tenant < totals.now.tenants }
    ensures { OnOk result (text.new.items ≡ text.old.items ++ served_line name.now tenant totals.now) }
{
    text.extend_from_slice(name)?;
    put_count(alloc, text, b" 200 ", totals.get(tenant, Kind::Answered))?;
    put_count(alloc, text, b" 4xx ", totals.get(tenant, Kind::ClientError))?;
    put_count(alloc, text, b" 503 ", totals.get(tenant, Kind::Unavailable))?;
    put_count(alloc, text, b" link ", totals.get(tenant, Kind::LinkFault))?;
    text.push(b'\n')?;
    Ok(())
}

fn put_count(alloc: Global, text: &mut Vec<u8>, words: &[u8], count: u64) -> Result<(), AllocError>
    ensures { OnOk result (text.new.items ≡ text.old.items ++ words.now ++ decimal count) }
{
    text.extend_from_slice(words)?;
    let count = count.to_string(alloc)?;
    text.extend_from_slice(count.as_bytes())
}

// Writes a text, the lines of the tenants, and what is last.
fn tell<W: Write>(
    alloc: Global,
    mut text: Vec<u8>,
    names: &[Name],
    totals: &Totals,
    last: &[u8],
    writer: &mut W,
) -> Result<(), ServeFault>
    requires { length names.now ≤ totals.now.tenants }
    ensures told { OnOk result (Appends (W.contents writer.old) (W.contents writer.new)
        (text.items ++ lines_upto (length names.now) names.now totals.now ++ last.now)) }
    ensures err { IfErr result (λ fault. (fault ≡ ServeFault.Memory) ⊎ (fault ≡ ServeFault.Device)) }
{
    let lines = lines_of(alloc, names, totals)?;
    text.extend_from_slice(lines.as_slice())?;
    text.extend_from_slice(last)?;
    Ok(writer.write_all(text.as_slice())?)
}

/// Where a service is asked.
#[derive(Drop)]
pub struct Doors<'a> {
    /// Where packets and commands come.
    pub packets: &'a TcpListener,
    /// Where the host asks, if anywhere.
    pub host: Option<HostDoor<'a>>,
    /// Where operators ask and command, if anywhere.
    pub operators: Option<OperatorDoor<'a>>,
}

/// Serves connections, each on a thread of its own, and joins the threads once the planned number was served. Then it writes, if
/// planned, the lines of the command `balances` for each tenant; a line for each tenant; and, if planned, the audit's line.
///
/// A connection that brings no byte does not count as served. A packet that goes on takes one of the places that the tenants
/// share, during the exchange with the next peer.
///
/// A tenant's line has the counts of its packets and commands by status, and of exchanges in which a peer gave no answer. They
/// are the sums of the workers' counts. A worker begins with zeros, and counts each question as `HasAnswered` says. Its questions
/// are the requests of its connections, in order, none skipped, and none after one that closes a connection.
///
/// The operators' door counts too: it does each command as a worker does one that comes with packets, at a desk of its own. It
/// does none once the service is stopped.
///
/// All that the workers and operators did to the tenants' books is one list, whatever the threads did. Each tenant's part leads
/// from the setup to the tenant's book, each worker's part is what it did, and it has nothing else. The list is a run of a `Floor`
/// from the setup (`Books::gather`).
///
/// For an audit each worker keeps a receipt of each entry that it appends, and the periods that it closes, so memory grows with
/// the entries. At the end one worker rolls each tenant, and all receipts are checked against all periods. `audit ok N` says that
/// these N receipts are complete, and `audit WORD` what is wrong.
///
/// If statements are kept, one is written of each period that a roll closes, after the book's lock is free and before the roll is
/// answered. One that can't be written is tried again at the tenant's next roll and at the end. At the end one worker rolls each
/// tenant, and each statement that is not kept has a line: `statement NAME PERIOD missing`. With an audit the receipts of all
/// workers are written too; the line `receipts missing` says that they are not kept.
///
/// If a journal is kept, nothing leaves the service before what led to it is on the disk. That holds of each frame that goes on,
/// and of each answer to a packet, to a command or to a question about a book, but not of the host's metrics. Once the journal
/// can't be written any more, packets and commands are refused (503), and the service ends.
///
/// Errors:
///
/// - `Memory`: out of memory, also if only the audit is.
/// - `Device`: a thread could not be started, or the lines or a statement not be written; or a connection not be accepted, unless
///   the host stopped the service. Or the journal could not be written: its log is full, or the disk has failed.
/// - `Differs`: the books at the end are not what the workers counted. No lock that returns what was left in it leads to this.
/// - `Audit`: an audit found a fault, or the books differ.
///
/// The lines are written first, unless no thread was started or it is out of memory.
pub fn serve<
    H: Threads
        + Wait
        + Net<Listener = TcpListener, Stream = TcpStream>
        + std::time::Clock
        + Disk
        + Sync,
    C: workers::Clock + Sync,
    W: Write,
>(
    handle: &H,
    alloc: Global,
    start: Start<'_>,
    plan: Plan<'_>,
    doors: Doors<'_>,
    clock: &C,
    writer: &mut W,
) -> Result<(), ServeFault>
    requires as_many { length start.openings.now ≡ length start.setup.now.tenants }
    requires numbers { AreNumbered start.openings.now }
    requires journal { IfSome start.journal (BeginsLog disk_seen disk_may_leave start.openings.now) }
    requires tenants { (1 ≤ length start.setup.now.tenants) × (length start.setup.now.tenants ≤ max_tenants) }
    requires workers { (1 ≤ plan.extent.workers) × (plan.extent.workers ≤ max_places) }
    requires connections { (1 ≤ plan.extent.connections) × (plan.extent.connections ≤ max_workers) }
    ensures { OnOk result (HasToldCounts (C.gives clock.now) start.entry.setup.now start.entry.openings.now plan.entry
        (record { operators = is_some doors.entry.operators; journal = is_some start.entry.journal }) (W.contents writer.old) (W.contents writer.new)) }
{
    let system = System {
        handle,
        alloc,
        clock,
    };
    let tenants = start.openings.len();
    let desks = desk_count(plan.extent, doors.operators.is_some());
    let opened = Opened::new(alloc, tenants, desks)?;
    serve_run::<Brand, _, _, _>(system, opened, start, plan, doors, writer)
}

// Serves, with one list of all that is done to the books, which has just been opened.
fn serve_run<
    J: Run + Send + Sync,
    H: Threads
        + Wait
        + Net<Listener = TcpListener, Stream = TcpStream>
        + std::time::Clock
        + Disk
        + Sync,
    C: workers::Clock + Sync,
    W: Write,
>(
    system: System<'_, H, C>,
    opened: Opened,
    start: Start<'_>,
    plan: Plan<'_>,
    doors: Doors<'_>,
    writer: &mut W,
) -> Result<(), ServeFault>
    requires list { (opened.table ≡ J.table) × (opened.size ≡ J.size) }
    requires size { J.size ≡ record { tenants = length start.openings.now; workers = desk_count plan.extent.connections (is_some doors.operators) } }
    requires openings { J.openings ≡ start.openings.now }
    requires as_many { length start.openings.now ≡ length start.setup.now.tenants }
    requires numbers { AreNumbered start.openings.now }
    requires journal { IfSome start.journal (BeginsLog disk_seen disk_may_leave start.openings.now) }
    requires tenants { (1 ≤ length start.setup.now.tenants) × (length start.setup.now.tenants ≤ max_tenants) }
    requires workers { (1 ≤ plan.extent.workers) × (plan.extent.workers ≤ max_places) }
    requires connections { (1 ≤ plan.extent.connections) × (plan.extent.connections ≤ max_workers) }
    ensures { OnOk result (HasToldCountsIn J.Run (C.gives system.entry.clock.now) start.entry.setup.now plan.entry
        (record { operators = is_some doors.entry.operators; journal = is_some start.entry.journal }) (W.contents writer.old) (W.contents writer.new)) }
{
    let (alloc, report) = (system.alloc, plan.report);
    let desks = desk_count(plan.extent, doors.operators.is_some());
    let begun = Instant::now(system.handle)?;
    let Begun {
        office,
        mut first,
        shares,
    } = open_office::<J>(alloc, begun, opened, start, plan, desks)?;
    let done = run_all(&system, &office, &mut first, shares, doors, report.audit)?;
    let Done {
        mut shares,
        periods,
        failed,
    } = done;
    let Last { missing, audit } = finish(&system, plan, &office, &mut shares, periods);
    let last = followed_by(missing, audit.line.as_slice())?;
    let was_stopped = office.door.is_closed();
    let is_lost = office.has_lost_journal();
    let Office {
        books,
        names,
        meters,
        ..
    } = office;
    let totals = meters.close(first);
    let names = names.as_slice();
    match books.gather(alloc, shares) {
        Ok(gathered) => {
            let text = balance_lines(alloc, report.balances, names, gathered)?;
            tell(alloc, text, names, &totals, last.text.as_slice(), writer)?;
            end_of(
                failed,
                was_stopped,
                all_kept(last.is_stated, is_lost),
                audit.end,
            )
        }
        Err(fault) => tell_ungathered(alloc, &fault, report.audit, names, &totals, writer),
    }
}

// Whether all is kept: statements and receipts, and what was done in the journal, if it is not lost.
fn all_kept(is_stated: bool, is_lost: bool) -> bool
    ensures { result ≡ true → is_stated ≡ true }
{
    is_stated && !is_lost
}

// Writes the lines of the tenants where the books were not gathered, and gives how the service ends.
fn tell_ungathered<J: Run, W: Write>(
    alloc: Global,
    fault: &GatherFault<J>,
    audited: bool,
    names: &[Name],
    totals: &Totals,
    writer: &mut W,
) -> Result<(), ServeFault>
    requires { length names.now ≤ totals.now.tenants }
    ensures err { is_ok result ≡ false }
    ensures told { EndsTold result (ungathered_end fault.now audited) (Appends (W.contents writer.old) (W.contents writer.new)
        (lines_upto (length names.now) names.now totals.now ++ ungathered_line (ungathered_end fault.now audited))) }
{
    let end = ungathered_end(fault, audited);
    let line = ungathered_line(alloc, end)?;
    let text = Vec::new(alloc);
    tell(alloc, text, names, totals, line.as_slice(), writer)?;
    Err(end)
}

// The last line of such an end.
fn ungathered_line(alloc: Global, end: ServeFault) -> Result<Vec<u8>, AllocError>
    ensures { IfOk result (λ line. line.items ≡ ungathered_line end) }
{
    match end {
        ServeFault::Audit => audit_told(alloc, b"differs"),
        ServeFault::Memory | ServeFault::Device | ServeFault::Differs => Ok(Vec::new(alloc)),
    }
}
