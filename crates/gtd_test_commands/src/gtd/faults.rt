//! How faults are shown: each by its name, and each refusal by its line. No contract says which text a `Display` writes.

use gtd_calendar::StampFault;
use gtd_core::{Fault, HorizonFault, TextFault};
use gtd_devices::InputFault;
use gtd_eval::EverFault;
use gtd_records::RecordFault;
use gtd_report::RunFault;
use gtd_tool::Refusal;
use std::alloc::Global;
use std::fmt::Display;
use std::process::Abort;

const FAULT: TextFault = TextFault {
    kind: Fault::FieldRange,
    place: 2,
};

const DOMAIN: RecordFault = RecordFault::Domain {
    row: 3,
    fault: FAULT,
};

// Each value is shown as the text beside it.
fn expect_shown<T: Display>(rt: &impl Abort, alloc: Global, table: &[(T, &str)]) {
    for (value, text) in table {
        let shown = format!(in alloc; "{value}").expect(rt, "memory");
        assert!(rt; shown.as_str() == *text);
    }
}

static TEXTS: [(Fault, &str); 11] = [
    (Fault::BadToken, "BadToken"),
    (Fault::Fuzzy, "Fuzzy"),
    (Fault::TooDeep, "TooDeep"),
    (Fault::TooMany, "TooMany"),
    (Fault::Repeated, "Repeated"),
    (Fault::FieldRange, "FieldRange"),
    (Fault::Negative, "Negative"),
    (Fault::Unexpected, "Unexpected"),
    (Fault::Incomplete, "Incomplete"),
    (Fault::TooLongDuration, "TooLongDuration"),
    (Fault::NoMemory, "NoMemory"),
];

static PLACES: [(TextFault, &str); 1] = [(FAULT, "FieldRange at 2")];

static MOMENTS: [(StampFault, &str); 3] = [
    (StampFault::Shape, "Shape"),
    (StampFault::NoSuchDate, "NoSuchDate"),
    (StampFault::Range, "Range"),
];

static HORIZONS: [(HorizonFault, &str); 4] = [
    (HorizonFault::Empty, "Empty"),
    (HorizonFault::TooEarly, "TooEarly"),
    (HorizonFault::TooLate, "TooLate"),
    (HorizonFault::TooLong, "TooLong"),
];

static CHANGES: [(EverFault, &str); 2] = [
    (EverFault::HasYear, "HasYear"),
    (EverFault::NoMemory, "NoMemory"),
];

static INPUTS: [(InputFault, &str); 4] = [
    (InputFault::ReadFault, "ReadFault"),
    (InputFault::TooLarge, "TooLarge"),
    (InputFault::Endless, "Endless"),
    (InputFault::NoMemory, "NoMemory"),
];

static FILES: [(RecordFault, &str); 11] = [
    (RecordFault::ReadFault, "ReadFault"),
    (RecordFault::TooLarge, "TooLarge"),
    (RecordFault::Header, "Header"),
    (RecordFault::FieldCount { row: 3 }, "FieldCount"),
    (RecordFault::Element { row: 3 }, "Element"),
    (RecordFault::Direction { row: 3 }, "Direction"),
    (RecordFault::Vehicle { row: 3 }, "Vehicle"),
    (DOMAIN, "Domain"),
    (RecordFault::TooManyRows, "TooManyRows"),
    (RecordFault::NoMemory, "NoMemory"),
    (RecordFault::Endless, "Endless"),
];

// The fault of a run for a record file is shown as that of the file.
static RUNS: [(RunFault, &str); 6] = [
    (RunFault::VehicleRange, "VehicleRange"),
    (RunFault::YearRange, "YearRange"),
    (RunFault::Records(RecordFault::Header), "Header"),
    (RunFault::NoElement, "NoElement"),
    (RunFault::WriteFault { written: 5 }, "WriteFault"),
    (RunFault::NoMemory { written: 5 }, "NoMemory"),
];

static REFUSALS: [(Refusal, &str); 13] = [
    (Refusal::Usage, "usage: gtd COMMAND ARGUMENTS"),
    (Refusal::Text(FAULT), "fault FieldRange at 2"),
    (Refusal::Moment(StampFault::Shape), "fault moment Shape"),
    (
        Refusal::Date(StampFault::NoSuchDate),
        "fault date NoSuchDate",
    ),
    (
        Refusal::Horizon(HorizonFault::TooEarly),
        "fault horizon TooEarly",
    ),
    (
        Refusal::Horizon(HorizonFault::TooLate),
        "fault horizon TooLate",
    ),
    (Refusal::HasYear, "fault HasYear"),
    (Refusal::VehicleRange, "fault VehicleRange"),
    (Refusal::YearRange, "fault YearRange"),
    (Refusal::NoElement, "fault NoElement"),
    (Refusal::Open, "fault Open"),
    (Refusal::Write, "fault WriteFault"),
    (Refusal::Memory, "fault NoMemory"),
];

static REFUSED_FILES: [(Refusal, &str); 10] = [
    (Refusal::Records(RecordFault::ReadFault), "fault ReadFault"),
    (Refusal::Records(RecordFault::TooLarge), "fault TooLarge"),
    (Refusal::Records(RecordFault::Header), "fault Header"),
    (
        Refusal::Records(RecordFault::FieldCount { row: 3 }),
        "fault row 3 FieldCount",
    ),
    (
        Refusal::Records(RecordFault::Element { row: 3 }),
        "fault row 3 Element",
    ),
    (
        Refusal::Records(RecordFault::Direction { row: 3 }),
        "fault row 3 Direction",
    ),
    (
        Refusal::Records(RecordFault::Vehicle { row: 3 }),
        "fault row 3 Vehicle",
    ),
    (
        Refusal::Records(DOMAIN),
        "fault row 3 Domain FieldRange at 2",
    ),
    (
        Refusal::Records(RecordFault::TooManyRows),
        "fault row 65537 TooManyRows",
    ),
    (Refusal::Records(RecordFault::Endless), "fault Endless"),
];

#[test]
fn faults_of_texts_and_days(rt: HostRuntime) {
    let alloc = rt.alloc();
    expect_shown(&rt, alloc, &TEXTS);
    expect_shown(&rt, alloc, &PLACES);
    expect_shown(&rt, alloc, &MOMENTS);
    expect_shown(&rt, alloc, &HORIZONS);
    expect_shown(&rt, alloc, &CHANGES);
}

#[test]
fn faults_of_files_and_runs(rt: HostRuntime) {
    let alloc = rt.alloc();
    expect_shown(&rt, alloc, &INPUTS);
    expect_shown(&rt, alloc, &FILES);
    expect_shown(&rt, alloc, &RUNS);
}

#[test]
fn lines_of_refusals(rt: HostRuntime) {
    let alloc = rt.alloc();
    expect_shown(&rt, alloc, &REFUSALS);
    expect_shown(&rt, alloc, &REFUSED_FILES);
}
