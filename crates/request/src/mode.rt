// A connector's mode.
ghost use Rattle.std.specs.Prelude.{◌≡◌};
ghost use Rattle.request.specs.Mode.{mode_at, may_have, is_sensor, is_lighting, is_silent, fresh_mode};

#[derive(Clone, Copy, PartialEq, Eq)]
pub enum Mode {
    Ir,
    Sensor,
    IrBlaster,
    LedLighting,
}

// The mode that the field at a place is, and where that field ends.
pub fn mode_at(s: &[u8], at: usize) -> Option<(Mode, usize)>
    ensures { result ≡ mode_at s.now at }
{
    if s.len() <= at {
        return None;
    }
    if text::field::field_is(s, at, b"IR") {
        return Some((Mode::Ir, at + 2));
    }
    if text::field::field_is(s, at, b"SENSOR") {
        return Some((Mode::Sensor, at + 6));
    }
    if text::field::field_is(s, at, b"IR_BLASTER") {
        return Some((Mode::IrBlaster, at + 10));
    }
    if text::field::field_is(s, at, b"LED_LIGHTING") {
        return Some((Mode::LedLighting, at + 12));
    }
    None
}

// Whether a connector may have a mode: IR_BLASTER is connector 3's alone.
pub fn may_have(port: u64, mode: Mode) -> bool
    ensures { result ≡ may_have port mode }
{
    mode != Mode::IrBlaster || port == 3
}

// Whether a connector in a mode reads its contact.
pub fn is_sensor(mode: Mode) -> bool
    ensures { result ≡ is_sensor mode }
{
    mode == Mode::Sensor
}

// Whether it dims a lamp.
pub fn is_lighting(mode: Mode) -> bool
    ensures { result ≡ is_lighting mode }
{
    mode == Mode::LedLighting
}

// Whether it transmits nothing.
pub fn is_silent(mode: Mode) -> bool
    ensures { result ≡ is_silent mode }
{
    matches!(mode, Mode::Sensor | Mode::LedLighting)
}

// The mode of a fresh hub's connector.
pub fn fresh_mode(port: u64) -> Mode
    ensures { result ≡ fresh_mode port }
{
    Mode::Ir
}
