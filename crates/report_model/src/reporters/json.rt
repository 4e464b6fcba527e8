//! The style `json`: an object of JSON for each report, in a line of its own.

ghost use Rattle.std.specs.Prelude.{◌≡◌, ◌++◌, ◌<◌, [], IfOk, OnOk, codes, flat_map};
ghost use Rattle.report_model.specs.OfReporters.Styles.{hexadecimal_digit, escaped, quoted, quoted_or_null, json_line, json_of};
ghost use Rattle.report_model.specs.OfReporters.Members.{value_text, member_text};

use crate::report::Report;
use crate::reporters::reporter::{Reporter, keep};
use itoa::Buffer;
use mx_base::Text;
use std::alloc::{AllocError, Global};

/// The value of a member.
#[derive(Clone, Copy)]
enum Value<'a> {
    Number(u32),
    Text(&'a [u8]),
    /// `null` where there is no text.
    TextOrNull(&'a Option<Text>),
}

/// A value, and the punctuation and the name before it.
#[derive(Clone, Copy)]
struct Member<'a> {
    before: &'a [u8],
    value: Value<'a>,
}

fn hexadecimal_digit(digit: u8) -> u8
    requires { digit < 16 }
    ensures { result ≡ hexadecimal_digit digit }
{
    if digit < 10 {
        b'0' + digit
    } else {
        b'a' + (digit - 10)
    }
}

// Appends a byte as it stands in a text.
fn write_escaped(byte: u8, into: &mut Text) -> Result<(), AllocError>
    ensures { OnOk result (into.new ≡ into.old ++ escaped byte) }
{
    if byte == b'"' || byte == b'\\' {
        return into.push_all(&[b'\\', byte]);
    }
    if byte < 32 || byte > 126 {
        let high = hexadecimal_digit(byte / 16);
        let low = hexadecimal_digit(byte % 16);
        return into.push_all(&[b'\\', b'u', b'0', b'0', high, low]);
    }
    into.push_all(&[byte])
}

// Appends bytes as they stand in a text.
fn write_all_escaped(bytes: &[u8], into: &mut Text) -> Result<(), AllocError>
    ensures { OnOk result (into.new ≡ into.old ++ flat_map escaped bytes.now) }
{
    for byte in bytes {
        write_escaped(*byte, into)?;
    }
    Ok(())
}

fn write_quoted(bytes: &[u8], into: &mut Text) -> Result<(), AllocError>
    ensures { OnOk result (into.new ≡ into.old ++ quoted bytes.now) }
{
    into.push_all(b"\"")?;
    write_all_escaped(bytes, into)?;
    into.push_all(b"\"")
}

fn write_quoted_or_null(text: &Option<Text>, into: &mut Text) -> Result<(), AllocError>
    ensures { OnOk result (into.new ≡ into.old ++ quoted_or_null text.now) }
{
    match text {
        None => into.push_all(b"null"),
        Some(text) => write_quoted(text.as_bytes(), into),
    }
}

fn write_value(value: &Value<'_>, into: &mut Text) -> Result<(), AllocError>
    ensures { OnOk result (into.new ≡ into.old ++ value_text value.now) }
{
    match value {
        Value::Number(number) => {
            let mut buffer = Buffer::new();
            into.push_all(buffer.format(*number).as_bytes())
        }
        Value::Text(bytes) => write_quoted(bytes, into),
        Value::TextOrNull(text) => write_quoted_or_null(text, into),
    }
}

fn write_members(members: &[Member<'_>], into: &mut Text) -> Result<(), AllocError>
    ensures { OnOk result (into.new ≡ into.old ++ flat_map member_text members.now) }
{
    for member in members {
        into.push_all(member.before)?;
        write_value(&member.value, into)?;
    }
    Ok(())
}

// Appends the line of a report.
fn write_object(report: &Report, into: &mut Text) -> Result<(), AllocError>
    ensures { OnOk result (into.new ≡ into.old ++ json_line report.now) }
{
    let members = [
        Member {
            before: b"{\"file\":",
            value: Value::Text(report.file.as_bytes()),
        },
        Member {
            before: b",\"line\":",
            value: Value::Number(report.line),
        },
        Member {
            before: b",\"col\":",
            value: Value::Number(report.col),
        },
        Member {
            before: b",\"checker\":",
            value: Value::Text(report.checker_name.as_bytes()),
        },
        Member {
            before: b",\"rule\":",
            value: Value::Number(report.rule as u32),
        },
        Member {
            before: b",\"object\":",
            value: Value::TextOrNull(&report.object),
        },
        Member {
            before: b",\"message\":",
            value: Value::Text(report.message.as_bytes()),
        },
    ];
    write_members(&members, into)?;
    into.push_all(b"}\n")
}

// A line for each report.
fn json_text(alloc: Global, reports: &[Report]) -> Result<Vec<u8>, AllocError>
    ensures { IfOk result (λ text. text.items ≡ json_of reports.now) }
{
    let mut text = Text::new(alloc);
    for report in reports {
        write_object(report, &mut text)?;
    }
    let bytes = Vec::from_slice(alloc, text.as_bytes())?;
    Ok(bytes)
}

/// Renders each report as an object of JSON in a line of its own. All bytes of these lines are ASCII.
#[derive(Drop)]
pub struct JsonLines {
    alloc: Global,
    reports: Vec<Report>,
}

impl JsonLines {
    /// A reporter that holds no report. It takes no memory yet.
    pub fn new(alloc: Global) -> JsonLines
        ensures { ⟦<JsonLines as Reporter>⟧.taken result ≡ [] }
    {
        JsonLines {
            alloc,
            reports: Vec::new(alloc),
        }
    }
}

impl Reporter for JsonLines {
    ghost taken = { λ s. s.reports.items };

    ghost rendered = { λ _. json_of };

    ghost called = { λ _. codes "json" };

    fn name(&self) -> &str {
        "json"
    }

    fn take(&mut self, report: &Report) -> Result<(), AllocError> {
        keep(&mut self.reports, report)
    }

    fn finish(&mut self) -> Result<Vec<u8>, AllocError> {
        let text = json_text(self.alloc, &self.reports)?;
        self.reports.clear();
        Ok(text)
    }
}
