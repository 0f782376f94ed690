//! Every item of `gtd_roads`, each called by a caller that lists no other crate.

ghost use Rattle.std.specs.Prelude.{◌≡◌};

use crate::{is_closed_for_eleven, migrate, schedule_of_eleven, shown_to_eleven};
use gtd_roads::{
    Direction, Horizon, HorizonFault, Host, HostOut, Input, InputFault, MemoryIn, MemoryOut,
    Migration, Output, Pull, Put, RecordFault, Records, RunFault, Schedule, Sec, Span, SpanSource,
    faults_of, open_seconds, read_direction, read_faults, read_number, read_records, read_whole,
    run_migrate, run_report, run_schedule, run_year, schedule_of,
};
use std::alloc::Global;
use std::process::Abort;
use std::test::Fail;

/// A file of two rows: 88 bytes.
const R: &str =
    "element,direction,vehicle,domain\n17,positive,0,[(M4d1){M3}]*[(h10){h4}]\n17,negative,11,\n";

/// The lines of its schedule on 2024-04-01 for vehicle type 11.
const SCHEDULE: [&str; 3] = [
    "element,direction,vehicle,from,until\n",
    "17,positive,11,2024-04-01T00:00:00,2024-04-01T10:00:00\n",
    "17,positive,11,2024-04-01T14:00:00,2024-04-02T00:00:00\n",
];

/// The lines of the file of version 2 that stands for it.
const MIGRATED: [&str; 3] = [
    "element,direction,vehicles,domain\n",
    "17,positive,0,[[(M4d1){M3}]*[(h10){h4}]]\n",
    "17,negative,11,\n",
];

/// 2024-04-01T00:00:00.
const APRIL: i64 = 1_711_929_600;

const HOUR: i64 = 3_600;

fn file(rt: &impl Abort, alloc: Global, fail_call: Option<u64>) -> MemoryIn
    ensures { ⟦<MemoryIn as Input>⟧.failure_count result ≡ 0 }
{
    let bytes = Vec::from_slice(alloc, R.as_bytes()).expect(rt, "memory");
    MemoryIn::new(bytes, 7, fail_call, None)
}

fn room(rt: &impl Abort, alloc: Global, fail_call: Option<u64>) -> MemoryOut
    ensures { ⟦<MemoryOut as Output>⟧.failure_count result ≡ 0 }
{
    MemoryOut::new(alloc, 20_000, 100, fail_call).expect(rt, "memory")
}

fn expect_lines(rt: &impl Abort, alloc: Global, output: &MemoryOut, lines: [&str; 3]) {
    let mut text = Vec::new(alloc);
    for line in lines {
        text.extend_from_slice(line.as_bytes()).expect(rt, "memory");
    }
    assert!(rt; output.bytes() == text.as_slice());
}

fn april(rt: &impl Abort) -> Horizon {
    match Horizon::new(19_814, 19_815) {
        Ok(horizon) => horizon,
        Err(fault) => panic!(rt; "{fault:?}"),
    }
}

fn records(rt: &impl Abort, alloc: Global) -> Records {
    match read_records(alloc, &mut file(rt, alloc, None)) {
        Ok(found) => found,
        Err(fault) => panic!(rt; "{fault:?}"),
    }
}

#[test]
fn words_of_columns(rt: HostRuntime) {
    assert!(rt; read_number(b"0017") == Some(17));
    assert!(rt; read_number(b"x") == None);
    assert!(rt; read_direction(b"negative") == Some(Direction::Negative));
    assert!(rt; read_direction(b"both") == None);
}

#[test]
fn values(rt: HostRuntime) {
    assert!(rt; Horizon::new(5, 5).err() == Some(HorizonFault::Empty));
    assert!(rt; Span::new(Sec(10), Sec(10)).is_none());
    assert!(rt; RecordFault::Header.name() == "Header");
    assert!(rt; RunFault::NoElement.name() == "NoElement");
    assert!(rt; InputFault::TooLarge.name() == "TooLarge");
}

#[test]
fn devices(rt: HostRuntime) -> Result<(), Fail> {
    let alloc = rt.alloc();
    let mut buffer = [0u8; 4];
    let mut host = Host::new(&b"abcdef"[..]);
    assert!(rt; host.pull(&mut buffer) == Pull::Got(4));
    assert!(rt; host.failures() == 0);
    let mut failing = file(&rt, alloc, Some(1));
    assert!(rt; failing.pull(&mut buffer) == Pull::Failed);
    assert!(rt; read_whole(alloc, &mut file(&rt, alloc, None), 88)?.as_slice() == R.as_bytes());
    let mut written = Vec::new(alloc);
    let mut out = HostOut::new(&mut written);
    assert!(rt; out.put(b"abc") == Put::Took(3));
    assert!(rt; out.finish() == Put::Took(0));
    Ok(())
}

#[test]
fn records_of_a_file(rt: HostRuntime) -> Result<(), Fail> {
    let alloc = rt.alloc();
    let found = records(&rt, alloc);
    assert!(rt; found.elements() == [17].as_slice());
    assert!(rt; found.rows().len() == 2);
    let ten = Sec(APRIL + 10 * HOUR);
    assert!(rt; found.closed_at(17, Direction::Positive, 11, ten));
    assert!(rt; is_closed_for_eleven(&found, 17, ten));
    assert!(rt; !is_closed_for_eleven(&found, 17, Sec(APRIL)));
    let rows = found.closing_rows(alloc, 17, Direction::Negative, 11, ten)?;
    assert!(rt; rows.as_slice() == [2].as_slice());
    assert!(rt; read_faults(alloc, &mut file(&rt, alloc, None))?.is_empty());
    assert_eq!(rt; faults_of(alloc, b"")?.len(), 1);
    Ok(())
}

#[test]
fn open_seconds_of_an_element(rt: HostRuntime) -> Result<(), Fail> {
    let alloc = rt.alloc();
    let found = records(&rt, alloc);
    let list = schedule_of(alloc, &found, 17, Direction::Positive, 11, april(&rt))?;
    assert!(rt; list.spans().len() == 2);
    let mut open = open_seconds(alloc, &found, 17, Direction::Positive, 11, april(&rt))?;
    assert!(rt; open.next() == Span::new(Sec(APRIL), Sec(APRIL + 10 * HOUR)));
    assert!(rt; open.next() == Span::new(Sec(APRIL + 14 * HOUR), Sec(APRIL + 24 * HOUR)));
    assert!(rt; open.next() == None);
    Ok(())
}

#[test]
fn schedules(rt: HostRuntime) {
    let alloc = rt.alloc();
    let mut whole = room(&rt, alloc, None);
    assert!(rt;
        run_schedule(
            alloc,
            &mut file(&rt, alloc, None),
            &mut whole,
            april(&rt),
            11
        ) == Ok(3)
    );
    expect_lines(&rt, alloc, &whole, SCHEDULE);
    let mut again = room(&rt, alloc, None);
    assert!(rt;
        schedule_of_eleven(alloc, &mut file(&rt, alloc, None), &mut again, april(&rt)) == Ok(3)
    );
    expect_lines(&rt, alloc, &again, SCHEDULE);
    shown_to_eleven();
    let report = Schedule {
        horizon: april(&rt),
        vehicle: 0,
    };
    let mut none = room(&rt, alloc, None);
    let refused = run_report(alloc, &mut file(&rt, alloc, None), &mut none, &report);
    assert!(rt; refused == Err(RunFault::VehicleRange));
    let mut failing = room(&rt, alloc, Some(1));
    let failed = run_schedule(
        alloc,
        &mut file(&rt, alloc, None),
        &mut failing,
        april(&rt),
        11,
    );
    assert!(rt; failed == Err(RunFault::WriteFault { written: 0 }));
}

#[test]
fn tables_and_migrated_files(rt: HostRuntime) {
    let alloc = rt.alloc();
    let mut table = room(&rt, alloc, None);
    let mut input = file(&rt, alloc, None);
    let days = run_year(
        alloc,
        &mut input,
        &mut table,
        17,
        Direction::Positive,
        11,
        2024,
    );
    assert!(rt; days == Ok(366));
    assert!(rt; table.bytes().len() == 366 * 17);
    let mut other = room(&rt, alloc, None);
    let mut input = file(&rt, alloc, None);
    let unnamed = run_year(
        alloc,
        &mut input,
        &mut other,
        18,
        Direction::Positive,
        11,
        2024,
    );
    assert!(rt; unnamed == Err(RunFault::NoElement));
    let mut migrated = room(&rt, alloc, None);
    assert!(rt; migrate(alloc, &mut file(&rt, alloc, None), &mut migrated) == Ok(3));
    expect_lines(&rt, alloc, &migrated, MIGRATED);
    let mut again = room(&rt, alloc, None);
    assert!(rt; run_migrate(alloc, &mut file(&rt, alloc, None), &mut again) == Ok(3));
    let mut last = room(&rt, alloc, None);
    assert!(rt; run_report(alloc, &mut file(&rt, alloc, None), &mut last, &Migration) == Ok(3));
}
