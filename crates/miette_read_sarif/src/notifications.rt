//! The notifications of a tool about itself.

ghost use Rattle.std.specs.Prelude.{◌≡◌, ◌++◌, IfOk, OnOk, filter};
ghost use Rattle.std.specs.Option.{option_copied};
ghost use Rattle.serde_json.specs.View.{view};
ghost use Rattle.miette_read.specs.views.Values.{values_behind};
ghost use Rattle.miette_read_sarif.specs.rules.Notices.{errors_at, id_at, is_error_notification, notification_code};
ghost use Rattle.miette_read_sarif.specs.rules.Notices.{notification_parts};
ghost use Rattle.miette_read_sarif.specs.rules.Notices.{notices_in, tool_notifications};

use crate::counted_results::says;
use crate::result_parts::{message_in, or_empty};
use miette_protocol::protocol::Severity;
use miette_read::lists::push_item;
use miette_read::members::{copy_text, member_object, member_objects, member_text};
use miette_read::reports::MessageParts;
use serde_json::Value;
use std::alloc::{AllocError, Global};

/// Returns whether a notification is an error.
fn is_error_notification(notice: &Value) -> bool
    ensures { result ≡ is_error_notification (view notice.now) }
{
    says(notice, "level", "error")
}

/// Appends the error notifications at a key.
fn push_errors<'v>(
    list: &mut Vec<&'v Value>,
    alloc: Global,
    invocation: &'v Value,
    key: &str,
) -> Result<(), AllocError>
    ensures { OnOk result (values_behind list.new.items ≡ values_behind list.old.items
        ++ errors_at key.now (view invocation.now)) }
{
    let notices = member_objects(alloc, invocation, key)?;
    for notice in notices.as_slice() {
        let notice = *notice;
        if is_error_notification(notice) {
            push_item(list, notice)?;
        }
    }
    Ok(())
}

/// Appends errors of the tool's execution, then of its configuration.
fn push_notices<'v>(
    list: &mut Vec<&'v Value>,
    alloc: Global,
    invocation: &'v Value,
) -> Result<(), AllocError>
    ensures { OnOk result (values_behind list.new.items ≡ values_behind list.old.items
        ++ notices_in (view invocation.now)) }
{
    push_errors(list, alloc, invocation, "toolExecutionNotifications")?;
    push_errors(list, alloc, invocation, "toolConfigurationNotifications")
}

/// Returns the error notifications of a run's tool.
pub(crate) fn tool_notifications<'v>(
    alloc: Global,
    run: &'v Value,
) -> Result<Vec<&'v Value>, AllocError>
    ensures { IfOk result (λ list. values_behind list.items ≡ tool_notifications (view run.now)) }
{
    let invocations = member_objects(alloc, run, "invocations")?;
    let mut list = Vec::new(alloc);
    for invocation in invocations.as_slice() {
        push_notices(&mut list, alloc, *invocation)?;
    }
    Ok(list)
}

/// Returns the id of the object at a key.
fn id_at<'v>(notice: &'v Value, key: &str) -> Option<&'v str>
    ensures { option_copied result ≡ id_at key.now (view notice.now) }
{
    member_text(member_object(notice, key)?, "id")
}

/// Returns the id of the notification's descriptor, or of its associated rule.
fn notification_code(notice: &Value) -> Option<&str>
    ensures { option_copied result ≡ notification_code (view notice.now) }
{
    match id_at(notice, "descriptor") {
        Some(id) => Some(id),
        None => id_at(notice, "associatedRule"),
    }
}

/// Returns the own parts of a notification.
pub(crate) fn notification_parts(alloc: Global, notice: &Value) -> Result<MessageParts, AllocError>
    ensures { IfOk result (λ it. it ≡ notification_parts (view notice.now)) }
{
    let message = or_empty(alloc, message_in(alloc, None, notice)?);
    let code = copy_text(alloc, notification_code(notice))?;
    Ok(MessageParts {
        message,
        code,
        severity: Severity::Error,
        help: None,
        url: None,
    })
}
