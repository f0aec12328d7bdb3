//! A diagnostic written by hand, and its report.

use crate::comparing::same;
use miette_protocol::protocol::{Diagnostic, LabeledSpan, Severity};
use miette_tree::report::Report;

/// A diagnostic written by hand: its meaning in one record, and a method for each part.
#[derive(Drop)]
struct Missing {
    message: String,
    help: String,
}

impl Diagnostic for Missing {
    ghost use Rattle.std.specs.Prelude.{Some, string_bytes};
    ghost use Rattle.miette_protocol.specs.views.Diagnostic.{message_alone};
    ghost use Rattle.miette_protocol.specs.declared.protocol.Severity.TheVariants.{Warning};

    ghost meaning = { λ it. record (message_alone (string_bytes it.message)) {
      severity = Some Warning;
      help = Some (string_bytes it.help);
    } };

    fn message(&self) -> &str {
        self.message.as_str()
    }

    fn code(&self) -> Option<&str> {
        None
    }

    fn severity(&self) -> Option<Severity> {
        Some(Severity::Warning)
    }

    fn help(&self) -> Option<&str> {
        Some(self.help.as_str())
    }

    fn url(&self) -> Option<&str> {
        None
    }

    fn labels(&self) -> Option<&[LabeledSpan]> {
        None
    }
}

#[test]
fn a_report_of_a_diagnostic_by_hand(rt: HostRuntime) {
    let alloc = rt.alloc();
    let message = String::from_str(alloc, "a file is missing").expect(&rt, "memory");
    let help = String::from_str(alloc, "make it").expect(&rt, "memory");
    let missing = Missing { message, help };
    let report: Report = Report::copied(alloc, &missing).expect(&rt, "memory");
    let parts = (report.message(), report.help(), report.severity());
    let wanted = (
        "a file is missing",
        Some("make it"),
        Some(Severity::Warning),
    );
    same(&rt, parts, wanted);
}
