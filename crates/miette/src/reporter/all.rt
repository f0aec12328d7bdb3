//! Several reports of a session at once.

ghost use Rattle.std.specs.Prelude.{◌≡◌, Option, map};
ghost use Rattle.std.specs.Process.{exit_status};
ghost use Rattle.miette_tree.specs.views.Report.{tree_of};
ghost use Rattle.miette.specs.declared.print.PrintError.{PrintError};
ghost use Rattle.miette.specs.rules.Counting.{with_all};
ghost use Rattle.miette.specs.rules.Reported.{AreReported, behaving};
ghost use Rattle.miette.specs.rules.ReporterRun.{run_status};
ghost use Rattle.miette.specs.views.Severities.{counted_severity};

use crate::handlers::ReportHandler;
use crate::reporter::run::Reporter;
use miette_protocol::protocol::Diagnostic;
use miette_protocol::source::SourceCode;
use miette_tree::report::Report;
use std::io::Write;
use std::process::ExitCode;

impl<T: ReportHandler, W: Write, F: Write> Reporter<T, W, F> {
    /// Prints these reports one after another, each like `report`. It goes on after one that can't be printed.
    /// `failure` returns the last reason.
    pub fn report_each<D: Diagnostic, S: SourceCode>(&mut self, reports: &[Report<D, S>])
        ensures { AreReported (behaving T.gives T.asks T.refuses T.keeps W.contents) self.old
            (map (tree_of D.meaning S.source) reports.now) self.new }
    {
        for report in reports {
            let _ = self.report(report);
        }
    }
}

impl<T: ReportHandler + Drop, W: Write + Drop, F: Write + Drop> Reporter<T, W, F> {
    /// Prints these reports like `report_each`, and ends the session like `finish`. The exit code is 0 if there was no
    /// error report and all was written, else 1.
    pub fn report_all<D: Diagnostic, S: SourceCode>(mut self, reports: &[Report<D, S>]) -> ExitCode
        ensures { (failure : Option PrintError) × (exit_status result ≡ run_status (with_all self.counts
            (map (counted_severity D.meaning S.source) reports.now)) failure) }
    {
        self.report_each(reports);
        self.finish()
    }
}
