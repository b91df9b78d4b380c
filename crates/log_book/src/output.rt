// What is to be written, put behind what there is as far as there is room. A turn begins with room for all that it can say.
ghost use Rattle.std.specs.Prelude.{◌≤◌};

use command::given::Command;
use composer::Wish;
use composer::compose::{compose, compose_sendir};
use logger::{Device, Heard};
use request::Place;
use request::mode::Mode;
use std::fmt;
use std::fmt::Write;
use writer::Form;

#[derive(Drop)]
pub struct Output {
    bytes: [u8; Output::ROOM],
    used: usize,
    ghost within: { used ≤ 65536 },
}

impl Write for Output {
    fn write_str(&mut self, s: &str) -> fmt::Result {
        let text = s.as_bytes();
        let room = &mut self.bytes[self.used..];
        // a text that fits has a copy of its own: where its length is known, as a literal's is, that takes no call
        if text.len() <= room.len() {
            room[..text.len()].copy_from_slice(text);
            self.used += text.len();
        } else {
            room.copy_from_slice(&text[..room.len()]);
            self.used = Output::ROOM;
        }
        Ok(())
    }
}

fn mode_name(mode: Mode) -> &'static str {
    match mode {
        Mode::Ir => "IR",
        Mode::Sensor => "SENSOR",
        Mode::IrBlaster => "IR_BLASTER",
        Mode::LedLighting => "LED_LIGHTING",
    }
}

fn device_line(device: Device) -> &'static str {
    match device {
        Device::Ethernet => "device 0\n",
        Device::Infrared => "device 1\n",
        Device::Relays => "device 2\n",
        Device::End => "enddevices\n",
    }
}

// The last three digits of a number, to be written one by one: `{:03}` takes a fifth of an error's line.
fn last_three(n: u64) -> [u64; 3] {
    [n / 100 % 10, n / 10 % 10, n % 10]
}

impl Output {
    const ROOM: usize = 65536;

    pub fn fresh() -> Self {
        Output {
            bytes: [0; Output::ROOM],
            used: 0,
        }
    }

    // A word, a place and a value. Each form with numbers has a function of its own, as its parts are set to 0 where the function that holds
    // them begins: in one for all, a form of no numbers would pay for those of the others.
    fn put_value(&mut self, word: &str, Place { m, port }: Place, value: u64) -> fmt::Result {
        writeln!(self, "{word} {m}:{port} {value}")
    }

    fn put_stop(&mut self, Place { m, port }: Place) -> fmt::Result {
        writeln!(self, "stop {m}:{port}")
    }

    fn put_mode(&mut self, Place { m, port }: Place, mode: Mode) -> fmt::Result {
        writeln!(self, "mode {m}:{port} {}", mode_name(mode))
    }

    fn put_error(&mut self, Place { m, port }: Place, number: u64) -> fmt::Result {
        let [a, b, c] = last_three(number);
        writeln!(self, "error {m}:{port} {a}{b}{c}")
    }

    fn put_lamp(&mut self, Place { m, port }: Place, level: u64, target: u64) -> fmt::Result {
        writeln!(self, "lamp {m}:{port} {level} {target}")
    }

    fn put_heard(&mut self, heard: Heard) -> fmt::Result {
        match heard {
            Heard::NotReply => self.write_str("not a reply\n"),
            Heard::State(place, state) => self.put_value("state", place, state),
            Heard::Complete(place, id) => self.put_value("complete", place, id),
            Heard::Busy(place, id) => self.put_value("busy", place, id),
            Heard::Stop(place) => self.put_stop(place),
            Heard::Mode(place, mode) => self.put_mode(place, mode),
            Heard::Error(number, place) => self.put_error(place, number),
            Heard::Version => self.write_str("version\n"),
            Heard::Listed(device) => self.write_str(device_line(device)),
            Heard::Lamp(place, level, target) => self.put_lamp(place, level, target),
        }
    }

    // What a reply line is.
    pub fn heard(&mut self, heard: Heard) {
        let _ = self.put_heard(heard);
    }

    pub fn average(&mut self, average: Option<(u64, u64)>) {
        let _ = match average {
            None => self.write_str("no reading\n"),
            Some((ones, readings)) => writeln!(self, "{ones} of {readings}"),
        };
    }

    // A line of another form.
    pub fn other(&mut self) {
        let _ = self.write_str("!\n");
    }

    // The last three digits of a refusal's number.
    fn refusal(&mut self, number: u64) {
        let [a, b, c] = last_three(number);
        let _ = writeln!(self, "!{a}{b}{c}");
    }

    // A request of so many bytes that was composed where it is to stand, with LF for its CR.
    fn request(&mut self, size: usize) {
        if 0 < size && size <= Output::ROOM - self.used {
            self.used += size;
            self.bytes[self.used - 1] = b'\n';
        }
    }

    // A request that was composed where it is to stand, or its refusal.
    fn composed(&mut self, composed: Result<usize, u64>) {
        match composed {
            Ok(size) => self.request(size),
            Err(number) => self.refusal(number),
        }
    }

    // A request is composed where it is to be written.
    pub fn wish(&mut self, wish: Wish) {
        let composed = compose(&mut self.bytes[self.used..], wish);
        self.composed(composed);
    }

    pub fn sendir(&mut self, form: Form, command: Command, counts: &[u64]) {
        let composed = compose_sendir(&mut self.bytes[self.used..], form, command, counts);
        self.composed(composed);
    }

    // A set_IR whose mode is none: its place is judged first, as that of a get_IR is.
    pub fn no_mode(&mut self, place: Place) {
        match compose(&mut self.bytes[self.used..], Wish::GetMode(place)) {
            Ok(_) => self.refusal(23),
            Err(number) => self.refusal(number),
        }
    }

    // Writes what is to be written. What cannot be written is let go, as where it went nobody reads.
    pub fn flush(&mut self, rt: &impl Print) {
        let _ = rt.write_all(&self.bytes[..self.used]);
        self.used = 0;
    }

    // Before a turn: there is room for a request, which is the longest that it can say, or it is made.
    pub fn with_room(&mut self, rt: &impl Print) {
        if Output::ROOM - self.used < composer::ROOM {
            self.flush(rt);
        }
    }
}
