ghost use Rattle.std.specs.Prelude.{◌≡◌, ◌+◌, ◌<◌, ◌^◌, suc, length, IfSome, None};
ghost use Rattle.kp_frames.specs.Frames.{after_byte, nest_from, opens, closes, start};
ghost use Rattle.kp_frames.specs.Held.{StaysOpen, ClosesAt};

/// Where a byte stands.
#[derive(Clone, Copy)]
pub enum Place {
    /// Outside strings.
    Outside,
    /// In a string.
    InString,
    /// In a string, behind a backslash.
    BehindBackslash,
}

/// The place at a text's end, and how many brackets of both kinds are open there.
#[derive(Clone, Copy)]
pub struct Nest {
    pub place: Place,
    pub level: usize,
}

/// Whether a byte is `{` or `[`.
pub fn is_opening(byte: u8) -> bool
    ensures { result ≡ opens byte }
{
    byte == b'{' || byte == b'['
}

/// Whether a byte is `}` or `]`.
fn is_closing(byte: u8) -> bool
    ensures { result ≡ closes byte }
{
    byte == b'}' || byte == b']'
}

/// The level behind a byte outside strings.
fn level_after(level: usize, byte: u8) -> usize
    requires { level + 1 < 2 ^ 64 }
    ensures { result ≡ (after_byte (record { place = Place.Outside; level = level }) byte).level }
{
    if byte == b'"' {
        return level;
    }
    if is_opening(byte) {
        return level + 1;
    }
    if is_closing(byte) {
        return level.saturating_sub(1);
    }
    level
}

/// The place behind a byte.
fn place_after(place: Place, byte: u8) -> Place
    ensures { result ≡ (after_byte (record { place = place; level = 0 }) byte).place }
{
    match place {
        Place::Outside => {
            if byte == b'"' {
                Place::InString
            } else {
                Place::Outside
            }
        }
        Place::InString => {
            if byte == b'\\' {
                Place::BehindBackslash
            } else if byte == b'"' {
                Place::Outside
            } else {
                Place::InString
            }
        }
        Place::BehindBackslash => Place::InString,
    }
}

impl Nest {
    /// No bracket is open.
    pub fn start() -> Nest
        ensures { result ≡ start }
    {
        Nest {
            place: Place::Outside,
            level: 0,
        }
    }

    /// The nest behind one more byte.
    fn after(self, byte: u8) -> Nest
        requires { self.level + 1 < 2 ^ 64 }
        ensures { result ≡ after_byte self byte }
    {
        let level = match self.place {
            Place::Outside => level_after(self.level, byte),
            _ => self.level,
        };
        Nest {
            place: place_after(self.place, byte),
            level,
        }
    }
}

/// How many bytes there are up to the one that closes all brackets. None: they stay open, and the nest is the one at the end.
pub fn first_close(nest: &mut Nest, bytes: &[u8]) -> Option<usize>
    requires { nest.old.level + length bytes.now < 2 ^ 64 }
    ensures closed { IfSome result (λ k. ClosesAt nest.old bytes.now k) }
    ensures open { result ≡ None → StaysOpen nest.old (suc (length bytes.now)) bytes.now }
    ensures nest { result ≡ None → nest.new ≡ nest_from nest.old bytes.now }
{
    for at in 0..bytes.len() {
        *nest = nest.after(bytes[at]);
        if nest.level == 0 {
            return Some(at + 1);
        }
    }
    None
}
