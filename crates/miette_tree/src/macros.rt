//! Macros that create diagnostics and reports from a format string.
//!
//! Each macro begins with `in alloc;`, as `format!` does. Keys with values precede the format string: `code`, `help`
//! and `url` (a `&str`), `severity` (a `Severity`), `labels` (a `Vec<LabeledSpan>`). `label` and `primary` add one
//! label, given as a span and a `&str`: `primary = ((9, 4), "here")`.

pub use miette_protocol::diagnostic::MietteDiagnostic;

/// Creates a diagnostic, as a `Result<MietteDiagnostic, AllocError>`:
/// `diagnostic!(in alloc; code = "math::bad", "{x} + {} = {z}", y, z = x + y)`.
#[macro_export]
macro_rules! diagnostic {
    (in $alloc:expr; $($key:ident = $value:expr,)* $format:literal $($arg:tt)*) => {{
        let made = match format!(in $alloc; $format $($arg)*) {
            Ok(message) => Ok($crate::macros::MietteDiagnostic {
                message,
                code: None,
                severity: None,
                help: None,
                url: None,
                labels: None,
            }),
            Err(refused) => Err(refused),
        };
        $(let made = match made {
            Ok(diagnostic) => $crate::diagnostic_with!($alloc, diagnostic, $key, $value),
            Err(refused) => Err(refused),
        };)*
        made
    }};
}

/// Adds one key to a diagnostic. Only `diagnostic!` expands to it.
#[macro_export]
macro_rules! diagnostic_with {
    ($alloc:expr, $diagnostic:ident, code, $value:expr) => {
        $diagnostic.with_code($alloc, $value)
    };
    ($alloc:expr, $diagnostic:ident, help, $value:expr) => {
        $diagnostic.with_help($alloc, $value)
    };
    ($alloc:expr, $diagnostic:ident, url, $value:expr) => {
        $diagnostic.with_url($alloc, $value)
    };
    ($alloc:expr, $diagnostic:ident, severity, $value:expr) => {
        Ok($diagnostic.with_severity($value))
    };
    ($alloc:expr, $diagnostic:ident, labels, $value:expr) => {
        Ok($diagnostic.with_labels($value))
    };
    ($alloc:expr, $diagnostic:ident, label, $value:expr) => {{
        let (span, text) = $value;
        $diagnostic.and_label_at($alloc, span, text)
    }};
    ($alloc:expr, $diagnostic:ident, primary, $value:expr) => {{
        let (span, text) = $value;
        $diagnostic.and_primary_at($alloc, span, text)
    }};
}

/// Creates a report of such a diagnostic, or the report of an `AllocError` if allocation fails. It takes two more keys:
/// `snippets` (a `Vec<Snippets>`) and `fixes` (a `Vec<Fix>`).
#[macro_export]
macro_rules! miette {
    (in $alloc:expr; $($arg:tt)+) => {
        $crate::report_of!($alloc; [] [] $($arg)+)
    };
}

/// Creates a report and separates its own keys from those of its diagnostic. Only `miette!` expands to it.
#[macro_export]
macro_rules! report_of {
    ($alloc:expr; [$($own:tt)*] [$($said:tt)*] snippets = $value:expr, $($arg:tt)+) => {
        $crate::report_of!($alloc; [$($own)* snippets = $value,] [$($said)*] $($arg)+)
    };
    ($alloc:expr; [$($own:tt)*] [$($said:tt)*] fixes = $value:expr, $($arg:tt)+) => {
        $crate::report_of!($alloc; [$($own)* fixes = $value,] [$($said)*] $($arg)+)
    };
    ($alloc:expr; [$($own:tt)*] [$($said:tt)*] $key:ident = $value:expr, $($arg:tt)+) => {
        $crate::report_of!($alloc; [$($own)*] [$($said)* $key = $value,] $($arg)+)
    };
    ($alloc:expr; [] [$($said:tt)*] $format:literal $($arg:tt)*) => {
        match $crate::diagnostic!(in $alloc; $($said)* $format $($arg)*) {
            Ok(diagnostic) => $crate::report::Report::new(diagnostic),
            Err(refused) => $crate::report::Report::from(refused),
        }
    };
    ($alloc:expr; [$($key:ident = $value:expr,)+] [$($said:tt)*] $format:literal $($arg:tt)*) => {{
        let made = match $crate::diagnostic!(in $alloc; $($said)* $format $($arg)*) {
            Ok(diagnostic) => Ok($crate::report::Report::new(diagnostic)),
            Err(refused) => Err(refused),
        };
        $(let made = match made {
            Ok(report) => $crate::report_with!($alloc, report, $key, $value),
            Err(refused) => Err(refused),
        };)+
        match made {
            Ok(report) => report,
            Err(refused) => $crate::report::Report::from(refused),
        }
    }};
}

/// Adds one key to a report. Only `miette!` expands to it.
#[macro_export]
macro_rules! report_with {
    ($alloc:expr, $report:ident, snippets, $value:expr) => {
        $report.with_all_snippets($alloc, $value)
    };
    ($alloc:expr, $report:ident, fixes, $value:expr) => {
        $report.with_fixes($alloc, $value)
    };
}

/// Returns such a report as the error of the enclosing function.
#[macro_export]
macro_rules! bail {
    ($($arg:tt)+) => {
        return $crate::report::Result::Err($crate::miette!($($arg)+))
    };
}

/// Returns such a report as the error of the enclosing function if a condition is false:
/// `ensure!(in alloc; n < 10, "{n} is too much")`.
#[macro_export]
macro_rules! ensure {
    (in $alloc:expr; $condition:expr, $($arg:tt)+) => {
        if !$condition {
            $crate::bail!(in $alloc; $($arg)+)
        }
    };
}
