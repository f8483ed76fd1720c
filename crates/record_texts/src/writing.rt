ghost use Rattle.std.specs.Prelude.{◌≡◌, ◌<◌, ◌++◌, ◌∷◌, [], OnOk};
ghost use Rattle.record_texts.specs.Forms.{before, between, behind, byte_text, field_text, hex_digit, hex_text, json_byte, record_line, tsv_byte, csv_byte};

use crate::form::Form;
use rec_types::Key;
use std::alloc::AllocError;

fn push_text(out: &mut Vec<u8>, text: &[u8]) -> Result<(), AllocError>
    ensures { OnOk result (out.new.items ≡ out.old.items ++ text.now) }
{
    out.extend_from_slice(text)
}

fn push_byte(out: &mut Vec<u8>, byte: u8) -> Result<(), AllocError>
    ensures { OnOk result (out.new.items ≡ out.old.items ++ byte ∷ []) }
{
    Ok(out.push(byte)?)
}

// The digit of a number below 16.
fn hex_digit(number: u8) -> u8
    requires { number < 16 }
    ensures { result ≡ hex_digit number }
{
    if number < 10 {
        number + 48
    } else {
        number + 87
    }
}

// The character of that number, by its number.
fn push_hex(out: &mut Vec<u8>, byte: u8) -> Result<(), AllocError>
    ensures { OnOk result (out.new.items ≡ out.old.items ++ hex_text byte) }
{
    push_text(out, b"\\u00")?;
    push_byte(out, hex_digit(byte / 16))?;
    push_byte(out, hex_digit(byte % 16))
}

fn push_tsv(out: &mut Vec<u8>, byte: u8) -> Result<(), AllocError>
    ensures { OnOk result (out.new.items ≡ out.old.items ++ tsv_byte byte) }
{
    if byte == b'\t' {
        push_text(out, b"\\t")
    } else if byte == b'\n' {
        push_text(out, b"\\n")
    } else if byte == b'\r' {
        push_text(out, b"\\r")
    } else if byte == b'\\' {
        push_text(out, b"\\\\")
    } else {
        push_byte(out, byte)
    }
}

fn push_csv(out: &mut Vec<u8>, byte: u8) -> Result<(), AllocError>
    ensures { OnOk result (out.new.items ≡ out.old.items ++ csv_byte byte) }
{
    if byte == b'"' {
        push_text(out, b"\"\"")
    } else {
        push_byte(out, byte)
    }
}

fn push_json(out: &mut Vec<u8>, byte: u8) -> Result<(), AllocError>
    ensures { OnOk result (out.new.items ≡ out.old.items ++ json_byte byte) }
{
    if byte == b'"' {
        push_text(out, b"\\\"")
    } else if byte == b'\\' {
        push_text(out, b"\\\\")
    } else if byte < 32 {
        push_hex(out, byte)
    } else if byte < 127 {
        push_byte(out, byte)
    } else {
        push_hex(out, byte)
    }
}

fn push_in(out: &mut Vec<u8>, form: Form, byte: u8) -> Result<(), AllocError>
    ensures { OnOk result (out.new.items ≡ out.old.items ++ byte_text form byte) }
{
    match form {
        Form::Tsv => push_tsv(out, byte),
        Form::Csv => push_csv(out, byte),
        Form::Json => push_json(out, byte),
    }
}

// Appends a key or a record.
fn push_field(out: &mut Vec<u8>, form: Form, bytes: &[u8]) -> Result<(), AllocError>
    ensures { OnOk result (out.new.items ≡ out.old.items ++ field_text form bytes.now) }
{
    for byte in bytes {
        push_in(out, form, *byte)?;
    }
    Ok(())
}

// What stands before the key of a line.
fn before(form: Form) -> &'static [u8]
    ensures { result.now ≡ before form }
{
    match form {
        Form::Tsv => b"",
        Form::Csv => b"\"",
        Form::Json => b"{\"key\":\"",
    }
}

// What stands between the key and the record.
fn between(form: Form) -> &'static [u8]
    ensures { result.now ≡ between form }
{
    match form {
        Form::Tsv => b"\t",
        Form::Csv => b"\",\"",
        Form::Json => b"\",\"record\":\"",
    }
}

// What stands behind the record.
fn behind(form: Form) -> &'static [u8]
    ensures { result.now ≡ behind form }
{
    match form {
        Form::Tsv => b"\n",
        Form::Csv => b"\"\n",
        Form::Json => b"\"}\n",
    }
}

/// Appends the line of a record in a form. Fault: that memory is refused; of the line any front is there then.
pub fn push_record(out: &mut Vec<u8>, form: Form, key: &Key, value: &[u8]) -> Result<(), AllocError>
    ensures { OnOk result
        (out.new.items ≡ out.old.items ++ record_line form (key.now, value.now)) }
{
    push_text(out, before(form))?;
    push_field(out, form, key.bytes())?;
    push_text(out, between(form))?;
    push_field(out, form, value)?;
    push_text(out, behind(form))
}
