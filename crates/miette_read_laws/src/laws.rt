//! Theorems on the reports of GCC diagnostics, ShellCheck comments and SARIF results: their texts are in the reports,
//! and their fixes can be applied.
//! Each theorem is the contract of a function with an empty body. Call the function to use its theorem.

ghost use Rattle.std.specs.Prelude.{[], None, codes, unwrap_or};
ghost use Rattle.std.specs.List.{flat_map};
ghost use Rattle.miette_read_gcc.specs.rules.Gcc.{message_of};
ghost use Rattle.miette_read_gcc.specs.rules.GccReport.{diagnostic_tree};
ghost use Rattle.miette_read.specs.rules.Members.{member_objects};
ghost use Rattle.miette_read_sarif.specs.rules.Logs.{notification_tree, result_tree};
ghost use Rattle.miette_read_sarif.specs.rules.Results.{result_context, message_in, strings_of};
ghost use Rattle.miette_read_shellcheck.specs.rules.Comments as comments;
ghost use Rattle.miette_read_laws.specs.laws.GccTexts as gcc_texts;
ghost use Rattle.miette_read_laws.specs.laws.LogTexts as log_texts;
ghost use Rattle.miette_read_laws.specs.laws.Messages.{FixesApply, MessagesStay, TextsStand};
ghost use Rattle.miette_read_laws.specs.laws.ShellcheckTexts as shellcheck_texts;

/// All fixes of a GCC diagnostic and of its related advice can be applied.
pub fn gcc_fixes_can_be_applied()
    ensures { FixesApply diagnostic_tree }
{}

/// All fixes of a SARIF result and of its related advice can be applied.
pub fn log_fixes_can_be_applied()
    ensures { FixesApply result_tree }
{}

/// The texts of a GCC diagnostic are in its report.
///
/// - `message`: the message is the report's.
/// - `texts`: so are the texts of its locations, of the events of its path, and of its notes and their locations.
pub fn gcc_texts_stand()
    ensures message { MessagesStay diagnostic_tree (λ files d. message_of d) }
    ensures texts { TextsStand diagnostic_tree (λ files d. gcc_texts.texts_of d) }
{}

/// The texts of a SARIF result are in its report.
///
/// - `message`: the message is the report's.
/// - `texts`: so are the texts of its locations and related locations, of located steps of its flows, and of its
///   suggestions.
pub fn log_texts_stand()
    ensures message { MessagesStay result_tree (λ g r. unwrap_or (message_in (strings_of g r) r) []) }
    ensures texts { TextsStand result_tree (λ g r. log_texts.texts_of (result_context g r) r) }
{}

/// The texts of an error notification in a SARIF log are in its report.
///
/// - `message`: the message is the report's.
/// - `texts`: so are the texts of its locations.
pub fn notice_texts_stand()
    ensures message { MessagesStay notification_tree (λ g n. unwrap_or (message_in None n) []) }
    ensures texts { TextsStand notification_tree
        (λ g n. flat_map (log_texts.location_texts g) (member_objects (codes "locations") n)) }
{}

/// All fixes of a ShellCheck comment and of its related advice can be applied.
pub fn shellcheck_fixes_can_be_applied()
    ensures { FixesApply comments.comment_tree }
{}

/// The texts of a ShellCheck comment are in its report.
///
/// - `message`: the message is the report's.
/// - `texts`: so is the message of its suggestion, if it has replacements.
pub fn shellcheck_texts_stand()
    ensures message { MessagesStay comments.comment_tree (λ files c. comments.message_of c) }
    ensures texts { TextsStand comments.comment_tree (λ files c. shellcheck_texts.texts_of c) }
{}
