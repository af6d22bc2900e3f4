//! The line of a flow entry.

ghost use Rattle.std.specs.Prelude.{◌≡◌, ◌++◌, IfOk, OnOk, string_bytes};
ghost use Rattle.of_action.specs.Spelling.{list_bytes};
ghost use Rattle.lego_model.specs.RunReport as report;

use of_action::{ActionList, encode_list, size};
use of_match::{Key, text};
use of_stats::FlowRow;
use of_types::ByteList;
use std::alloc::{AllocError, Global};

/// Writes `flow PRIORITY MATCH cookie=C idle=I hard=H flags=F packets=P bytes=B age=A actions=HEX`: a flow entry as its
/// owner sees it, with `-` for no actions. Timeouts and the age are in seconds.
#[tactic(auto, unfolding(lego_model::specs::RunReport::flow_line, lego_model::specs::RunReport::line_of))]
pub fn flow_line(alloc: Global, row: &FlowRow, flags: u16) -> Result<ByteList, AllocError>
    ensures { IfOk result (λ line. line ≡ report.flow_line row.now flags) }
{
    let mut line = String::new(alloc);
    push_key(alloc, &mut line, &row.key)?;
    push_cookie(&mut line, row.cookie)?;
    push_terms(&mut line, row, flags)?;
    push_counts(&mut line, row)?;
    push_actions(alloc, &mut line, &row.actions)?;
    line.push_str("\n")?;
    Ok(ByteList::from_vec(line.into_bytes()))
}

/// Appends `flow PRIORITY MATCH`.
fn push_key(alloc: Global, line: &mut String, key: &Key) -> Result<(), AllocError>
    ensures { OnOk result (string_bytes line.new ≡ string_bytes line.old ++ report.flow_head key.now) }
{
    let priority = key.priority;
    let matching = text(alloc, &key.matching)?;
    write!(line, "flow {priority} {matching}")
}

/// Appends ` cookie=C`.
#[tactic(auto, unfolding(lego_model::specs::RunReport::cookie_text))]
fn push_cookie(line: &mut String, cookie: u64) -> Result<(), AllocError>
    ensures { OnOk result (string_bytes line.new ≡ string_bytes line.old ++ report.cookie_text cookie) }
{
    write!(line, " cookie={cookie}")
}

/// Appends ` idle=I hard=H flags=F`.
#[tactic(auto, unfolding(lego_model::specs::RunReport::terms_text))]
fn push_terms(line: &mut String, row: &FlowRow, flags: u16) -> Result<(), AllocError>
    ensures { OnOk result (string_bytes line.new ≡ string_bytes line.old ++ report.terms_text row.now flags) }
{
    let (idle, hard) = (row.idle, row.hard);
    write!(line, " idle={idle} hard={hard} flags={flags}")
}

/// Appends ` packets=P bytes=B age=A`.
#[tactic(auto, unfolding(lego_model::specs::RunReport::counts_text))]
fn push_counts(line: &mut String, row: &FlowRow) -> Result<(), AllocError>
    ensures { OnOk result (string_bytes line.new ≡ string_bytes line.old ++ report.counts_text row.now) }
{
    let (packets, bytes, age) = (row.packets, row.bytes, row.duration_sec);
    write!(line, " packets={packets} bytes={bytes} age={age}")
}

/// Returns the bytes of actions.
fn spelling(alloc: Global, actions: &ActionList) -> Result<Vec<u8>, AllocError>
    ensures { IfOk result (λ bytes. bytes.items ≡ list_bytes actions.now) }
{
    let mut bytes = vec![in alloc; 0; size(actions)]?;
    encode_list(actions, &mut bytes);
    Ok(bytes)
}

/// Returns the digits of bytes, or a dash for none.
fn digits_or_dash(alloc: Global, bytes: &[u8]) -> Result<String, AllocError>
    ensures { IfOk result (λ digits. string_bytes digits ≡ report.dash_or bytes.now) }
{
    if bytes.is_empty() {
        String::from_str(alloc, "-")
    } else {
        hex::encode(alloc, bytes)
    }
}

/// Appends ` actions=HEX`, or a dash for no actions.
#[tactic(auto, unfolding(lego_model::specs::RunReport::actions_text))]
fn push_actions(alloc: Global, line: &mut String, actions: &ActionList) -> Result<(), AllocError>
    ensures { OnOk result (string_bytes line.new ≡ string_bytes line.old ++ report.actions_text actions.now) }
{
    let bytes = spelling(alloc, actions)?;
    let digits = digits_or_dash(alloc, bytes.as_slice())?;
    line.push_str(" actions=")?;
    line.push_str(&digits)
}
