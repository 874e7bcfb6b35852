// A reader for each kind of line.
ghost use Rattle.std.specs.Prelude.{◌≡◌};
ghost use Rattle.rules.specs.Text.{type_line, driver_line, point_line, sink_line, line_of, parted};
ghost use Rattle.text.specs.Stretches.{tab};
ghost use Rattle.text.specs.Fields.{fields_from, field_at};
ghost use Rattle.entries.specs.Lines.{capped, line_for, letter_of};

use super::stated::{pin_read, repeater_read, wire_read, word_of};
use checks::Line;
use rules::{Ohm, Refusal};
use text::{Field, field_at, number_at, signed_at};

fn type_line(line: &[u8], place: u32) -> Result<Line, Refusal>
    ensures { result ≡ line_for place (capped (type_line (fields_from line.now 2))) }
{
    let Field::Number(input, at) = number_at(line, 2) else {
        return Err(Refusal::Form(place));
    };
    let Field::Number(resistance, at) = number_at(line, at) else {
        return Err(Refusal::Form(place));
    };
    let Field::Number(own, at) = number_at(line, at) else {
        return Err(Refusal::Form(place));
    };
    if at <= line.len() {
        return Err(Refusal::Form(place));
    }
    Ok(Line::Repeater(repeater_read(input, resistance, own)))
}

fn driver_line(line: &[u8], place: u32) -> Result<Line, Refusal>
    ensures { result ≡ line_for place (capped (driver_line (fields_from line.now 2))) }
{
    let Field::Number(resistance, at) = number_at(line, 2) else {
        return Err(Refusal::Form(place));
    };
    if at <= line.len() {
        return Err(Refusal::Form(place));
    }
    Ok(Line::Driver(Ohm(word_of(resistance))))
}

fn point_line(line: &[u8], place: u32) -> Result<Line, Refusal>
    ensures { result ≡ line_for place (capped (point_line (fields_from line.now 2))) }
{
    let Field::Number(parent, at) = number_at(line, 2) else {
        return Err(Refusal::Form(place));
    };
    let Field::Number(resistance, at) = number_at(line, at) else {
        return Err(Refusal::Form(place));
    };
    let Field::Number(capacitance, at) = number_at(line, at) else {
        return Err(Refusal::Form(place));
    };
    let Field::Number(site, at) = number_at(line, at) else {
        return Err(Refusal::Form(place));
    };
    if at <= line.len() {
        return Err(Refusal::Form(place));
    }
    Ok(Line::Point(wire_read(parent, resistance, capacitance, site)))
}

fn sink_line(line: &[u8], place: u32) -> Result<Line, Refusal>
    ensures { result ≡ line_for place (capped (sink_line (fields_from line.now 2))) }
{
    let Field::Number(parent, at) = number_at(line, 2) else {
        return Err(Refusal::Form(place));
    };
    let Field::Number(resistance, at) = number_at(line, at) else {
        return Err(Refusal::Form(place));
    };
    let Field::Number(capacitance, at) = number_at(line, at) else {
        return Err(Refusal::Form(place));
    };
    let Field::Number(site, at) = number_at(line, at) else {
        return Err(Refusal::Form(place));
    };
    let Field::Number(load, at) = number_at(line, at) else {
        return Err(Refusal::Form(place));
    };
    let Field::Number(due, at) = signed_at(line, at) else {
        return Err(Refusal::Form(place));
    };
    if at <= line.len() {
        return Err(Refusal::Form(place));
    }
    let wire = wire_read(parent, resistance, capacitance, site);
    Ok(Line::Sink(wire, pin_read(load, due)))
}

// The letter that a line starts with, where its first field is one byte; else 0, which is no letter (`letter_of` of the definitions).
fn letter_of(line: &[u8]) -> u8
    ensures { result ≡ letter_of (field_at line.now 0) }
{
    match field_at(line, 0) {
        [letter] => *letter,
        _ => 0,
    }
}

// What a line states, by its letter.
pub fn read_line(line: &[u8], place: u32) -> Result<Line, Refusal>
    ensures { result ≡ line_for place (capped (line_of (parted tab line.now))) }
{
    match letter_of(line) {
        b'T' => type_line(line, place),
        b'D' => driver_line(line, place),
        b'W' => point_line(line, place),
        b'S' => sink_line(line, place),
        _ => Err(Refusal::Form(place)),
    }
}
