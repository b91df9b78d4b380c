// A line that asks for a request, without its first byte and its LF.
use crate::item;
use command::given::{Command, Given};
use composer::Wish;
use request::{Fixed, Place};
use writer::Form;

// What a line asks for: a request, a set_IR whose mode is none, or a sendir with so many counts.
#[derive(Clone, Copy)]
pub enum Asked {
    Wish(Wish),
    NoMode(Place),
    Sendir(Form, Command, usize),
}

// A request, where nothing is left of the line.
fn alone(s: &[u8], wish: Wish) -> Option<Asked> {
    s.is_empty().then_some(Asked::Wish(wish))
}

// set_IR M P MODE: the mode is the line's last item, and any word.
fn set_mode(s: &[u8], place: Place) -> Option<Asked> {
    let (word, s) = item::word(s)?;
    if word.is_empty() || !s.is_empty() {
        return None;
    }
    match request::mode::mode_at(word, 0) {
        // a word may have a comma, which ends the mode of a request
        Some((mode, end)) if end == word.len() => Some(Asked::Wish(Wish::SetMode(place, mode))),
        _ => Some(Asked::NoMode(place)),
    }
}

fn set_state(s: &[u8], place: Place) -> Option<Asked> {
    Some(Asked::Wish(Wish::SetState(place, item::last(s)?)))
}

// set_LED_LIGHTING M P TARGET RAMP
fn set_lamp(s: &[u8], place: Place) -> Option<Asked> {
    let (target, s) = item::number(s)?;
    Some(Asked::Wish(Wish::SetLamp(place, target, item::last(s)?)))
}

// The form that a code is to have.
fn form_of(word: &[u8]) -> Option<Form> {
    match word {
        b"plain" => Some(Form::Plain),
        b"lettered" => Some(Form::Lettered),
        _ => None,
    }
}

// sendir M P ID FREQ REPEAT OFFSET FORM N ..
fn sendir(s: &[u8], place: Place, counts: &mut [u64]) -> Option<Asked> {
    let (id, s) = item::number(s)?;
    let (freq, s) = item::number(s)?;
    let (repeat, s) = item::number(s)?;
    let (offset, s) = item::number(s)?;
    let (word, s) = item::word(s)?;
    let form = form_of(word)?;
    let count = item::counts(s, counts)?;
    let fields = Given {
        id,
        freq,
        repeat,
        offset,
    };
    Some(Asked::Sendir(form, Command { place, fields }, count))
}

// What the line asks for, or that it is of another form.
pub fn asked_of(s: &[u8], counts: &mut [u64]) -> Option<Asked> {
    let (name, s) = item::word(s)?;
    match name {
        b"getdevices" => return alone(s, Wish::Fixed(Fixed::Devices)),
        b"getversion" => return alone(s, Wish::Fixed(Fixed::Version)),
        _ => {}
    }
    let (place, s) = item::place(s)?;
    match name {
        b"set_IR" => set_mode(s, place),
        b"setstate" => set_state(s, place),
        b"set_LED_LIGHTING" => set_lamp(s, place),
        b"sendir" => sendir(s, place, counts),
        b"get_IR" => alone(s, Wish::GetMode(place)),
        b"getstate" => alone(s, Wish::GetState(place)),
        b"stopir" => alone(s, Wish::Stop(place)),
        b"get_LED_LIGHTING" => alone(s, Wish::GetLamp(place)),
        _ => None,
    }
}
