//! Dropping reports with many parts: within the stack of a test, and each part once.

use crate::comparing::same;
use miette_protocol::protocol::{Diagnostic, LabeledSpan, Severity};
use miette_tree::report::Report;
use std::alloc::{AllocError, Global};
use std::rc::Rc;

/// A diagnostic with the message `m` that shares a token.
#[derive(Drop)]
struct Owner {
    _token: Rc<u8>,
}

impl Diagnostic for Owner {
    ghost use Rattle.miette_protocol.specs.views.Diagnostic.{message_alone};
    ghost use Rattle.std.specs.Prelude.{codes};

    ghost meaning = { λ _. message_alone (codes "m") };

    fn message(&self) -> &str {
        "m"
    }

    fn code(&self) -> Option<&str> {
        None
    }

    fn severity(&self) -> Option<Severity> {
        None
    }

    fn help(&self) -> Option<&str> {
        None
    }

    fn url(&self) -> Option<&str> {
        None
    }

    fn labels(&self) -> Option<&[LabeledSpan]> {
        None
    }
}

/// Returns a report of a boxed owner.
fn report_of_owner(alloc: Global, token: &Rc<u8>) -> Result<Report, AllocError> {
    let _token = token.clone()?;
    let boxed: Box<dyn Diagnostic> = Box::new(alloc, Owner { _token })?;
    Ok(Report::new_boxed(boxed))
}

/// Each boxed part of a report, its cause and its related reports is dropped once.
#[test]
fn all_parts_are_let_go(rt: HostRuntime) {
    let alloc = rt.alloc();
    let token = Rc::new(alloc, 0u8).expect(&rt, "memory");
    let mut related = Vec::new(alloc);
    for _ in 0..3 {
        let report = report_of_owner(alloc, &token).expect(&rt, "memory");
        related.push(report).expect(&rt, "memory");
    }
    let cause = report_of_owner(alloc, &token).expect(&rt, "memory");
    let report = report_of_owner(alloc, &token)
        .expect(&rt, "memory")
        .with_related(related)
        .with_diagnostic_cause(alloc, cause)
        .expect(&rt, "memory");
    let with = Rc::strong_count(&token);
    drop(report);
    same(&rt, (with, Rc::strong_count(&token)), (6, 1));
}

/// A long chain of causes can be read and dropped.
#[test]
fn a_long_chain_is_let_go(rt: HostRuntime) {
    let alloc = rt.alloc();
    let mut report: Report = Report::msg(alloc, "innermost").expect(&rt, "memory");
    for _ in 0..100_000 {
        report = Report::msg(alloc, "outer")
            .expect(&rt, "memory")
            .with_diagnostic_cause(alloc, report)
            .expect(&rt, "memory");
    }
    let mut chain = report.chain();
    same(
        &rt,
        (chain.next_back(), chain.len()),
        (Some("innermost"), 100_000),
    );
}
