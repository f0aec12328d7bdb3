//! The handlers. Each renders reports in its own form.

pub use miette_brief::form::BriefForm;
pub use miette_brief::handler::BriefReportHandler;
pub use miette_debug::handler::DebugReportHandler;
pub use miette_graphical::handler::{GraphicalReportHandler, SetLayout};
pub use miette_json::handler::JSONReportHandler;
pub use miette_narrated::handler::NarratableReportHandler;
pub use miette_tree::report_handler::ReportHandler;
