//! Calls that detect the terminal and print reports.

use crate::attached::OOPS;
use crate::diagnostics::{CAUSES, FULL};
use crate::fixtures::{TestReport, report_with};
use crate::rows::{CallResult, REFUSED, Rows, VALUE};
use miette::handlers::NarratableReportHandler;
use miette::highlight::BlankHighlighter;
use miette::options::MietteHandlerOpts;
use miette::print::{
    Outputs, PrintError, eprint_report, eprint_report_with, print_report, print_report_with,
    print_to_writer, print_with_outputs, write_report,
};
use miette::terminal::{Stream, Variables, detect_terminal};
use std::alloc::{AllocError, Global};

/// The calls of this module.
#[derive(Clone, Copy)]
pub enum PrintingCall {
    Read,
    Detect,
    Write,
    To,
    On,
    Print,
    PrintWith,
    Eprint,
    EprintWith,
}

/// Makes a call. Reports that it prints are in rows of their own.
///
/// # Errors
/// If allocating the call's arguments fails.
pub fn make(rt: &HostRuntime, name: &str, call: PrintingCall, row: &mut Rows) -> CallResult {
    match call {
        PrintingCall::Read => row.after(Variables::read(rt, true, true), &"read"),
        PrintingCall::Detect => row.after(detect_terminal(rt, Stream::Stdout), &"detected"),
        PrintingCall::Write | PrintingCall::To | PrintingCall::On => {
            let report = full_report(rt.alloc())?;
            return written(rt, call, row, &report);
        }
        _ => {
            let report = short_report(rt.alloc())?;
            row.text("\tprints:\n");
            print(rt, call, &report);
            row.text(name);
            row.text("\tprinted");
        }
    }
    Ok(())
}

/// Returns the report `oops!` with all parts, over two texts.
fn full_report(alloc: Global) -> Result<TestReport, AllocError> {
    report_with(alloc, &FULL, &CAUSES)
}

/// Returns a report with the message `oops!`.
fn short_report(alloc: Global) -> Result<TestReport, AllocError> {
    report_with(alloc, &OOPS, &[])
}

/// Prints a report and ignores the exit code.
fn print(rt: &HostRuntime, call: PrintingCall, report: &TestReport) {
    let _ = match call {
        PrintingCall::Print => print_report(rt, report),
        PrintingCall::PrintWith => print_report_with(rt, in_colours(), report),
        PrintingCall::Eprint => eprint_report(rt, report),
        _ => eprint_report_with(rt, in_colours(), report),
    };
}

fn in_colours() -> MietteHandlerOpts<BlankHighlighter> {
    MietteHandlerOpts::default().color(true)
}

fn in_words() -> MietteHandlerOpts<BlankHighlighter> {
    MietteHandlerOpts::default().force_narrated(true)
}

/// Writers with enough capacity for everything that is printed here.
type Rooms = Outputs<Vec<u8>, Vec<u8>>;

fn rooms(alloc: Global) -> Result<Rooms, AllocError> {
    let writer = Vec::with_capacity(alloc, 4096)?;
    Ok(Outputs::new(writer, Vec::with_capacity(alloc, 4096)?))
}

fn written(
    rt: &HostRuntime,
    call: PrintingCall,
    row: &mut Rows,
    report: &TestReport,
) -> CallResult {
    let mut rooms = rooms(rt.alloc())?;
    let answer = write(rt, call, report, &mut rooms);
    held(row, answer, rooms.writer.as_slice());
    Ok(())
}

/// Returns the call's result with a narrated handler.
fn write(
    rt: &HostRuntime,
    call: PrintingCall,
    report: &TestReport,
    rooms: &mut Rooms,
) -> Result<(), PrintError> {
    match call {
        PrintingCall::To => print_to_writer(
            rt,
            Stream::Stdout,
            in_words(),
            report,
            &mut rooms.writer,
        ),
        PrintingCall::On => {
            let _ = print_with_outputs(rt, Stream::Stdout, in_words(), report, rooms);
            told(rooms.faults.as_slice())
        }
        _ => {
            let mut telling = NarratableReportHandler::new();
            write_report(rt.alloc(), &mut telling, report, &mut rooms.writer)
        }
    }
}

/// Returns how printing ended, from the error stream.
fn told(faults: &[u8]) -> Result<(), PrintError> {
    match str::from_utf8(faults).unwrap_or("no text") {
        "" => Ok(()),
        "a report could not be printed: out of memory\n" => Err(PrintError::Memory),
        _ => Err(PrintError::Write),
    }
}

/// Prints the writer's contents after a call.
fn held(row: &mut Rows, answer: Result<(), PrintError>, written: &[u8]) {
    let text = str::from_utf8(written).unwrap_or("no text");
    let before = match answer {
        Ok(()) => VALUE,
        Err(PrintError::Memory) => REFUSED,
        Err(PrintError::Refused) => "\ta source could not be read: ",
        Err(PrintError::Write) => "\twrite fault: ",
    };
    row.part(before, &text);
}
