ghost use Rattle.std.specs.Prelude.{◌≡◌, ◌≤◌, ◌<◌, ◌-◌, ℕ, Bool, None, Some, IsTrue, get_or, length, take, drop, MatchOption, true, false};
ghost use Rattle.bz_lex.specs.declared.gap.GapState.TheVariants.{Open};
ghost use Rattle.bz_lex.specs.private.GapStates.{gap_move, gap_state_after, Stops, is_end, broken_off};

/// How far a gap has been read.
#[derive(Clone, Copy)]
pub enum GapState {
    /// Between two pieces.
    Open,
    /// After a backslash.
    Escape,
    /// After a backslash and a carriage return.
    EscapeReturn,
    /// In a comment.
    Comment,
}

impl GapState {
    /// Whether the state after one more byte is surely the same, as in a run of spaces or in a comment.
    fn stays(self, byte: u8) -> bool
        ensures { IsTrue result → (newlines : Bool) → gap_move newlines self byte ≡ Some self }
    {
        match self {
            GapState::Open => byte == b' ',
            GapState::Comment => byte != b'\n',
            _ => false,
        }
    }

    /// The state after one more byte; `None` where no gap goes on with it.
    fn step(self, newlines: bool, byte: u8) -> Option<GapState>
        ensures { result ≡ gap_move newlines self byte }
    {
        match self {
            GapState::Open => match byte {
                b' ' | b'\t' | b'\r' => Some(GapState::Open),
                b'\\' => Some(GapState::Escape),
                b'#' => Some(GapState::Comment),
                b'\n' => newlines.then_some(GapState::Open),
                _ => None,
            },
            GapState::Escape => match byte {
                b'\n' => Some(GapState::Open),
                b'\r' => Some(GapState::EscapeReturn),
                _ => None,
            },
            GapState::EscapeReturn => (byte == b'\n').then_some(GapState::Open),
            GapState::Comment => match byte {
                b'\n' => newlines.then_some(GapState::Open),
                _ => Some(GapState::Comment),
            },
        }
    }
}

/// How long the gap at the front of a text is, and the state at its end.
#[derive(Clone, Copy)]
pub struct GapFront {
    pub length: usize,
    pub state: GapState,
}

impl GapFront {
    /// Where the gap breaks off, if it does: at a backslash that is not right before a newline.
    pub fn broken_at(self) -> Option<usize>
        ensures { MatchOption result (is_end true self.state ≡ true) (λ at. (is_end true self.state ≡ false) × (at ≤ self.length) × (at ≡ self.length - broken_off self.state)) }
    {
        match self.state {
            GapState::Open | GapState::Comment => None,
            GapState::Escape => Some(self.length.saturating_sub(1)),
            GapState::EscapeReturn => Some(self.length.saturating_sub(2)),
        }
    }
}

/// Whether no gap goes on with a byte between two pieces, as far as that is seen at a glance: most tokens begin with such a byte.
#[inline(always)]
fn is_past(byte: u8) -> bool
    ensures { IsTrue result → (newlines : Bool) → gap_move newlines Open byte ≡ None }
{
    byte > b'#' && byte != b'\\' || byte == b'"'
}

/// Reads as much as a gap can go on with; `newlines` says whether unescaped newlines may be in it. Most gaps are empty or one space.
#[inline(always)]
pub fn gap_front(text: &[u8], newlines: bool) -> GapFront
    ensures within { result.length ≤ length text.now }
    ensures taken { gap_state_after newlines Open (take result.length text.now) ≡ Some result.state }
    ensures stops { Stops newlines result.state (drop result.length text.now) }
{
    match text {
        [first, ..] if is_past(*first) => GapFront {
            length: 0,
            state: GapState::Open,
        },
        [b' ', second, ..] if is_past(*second) => GapFront {
            length: 1,
            state: GapState::Open,
        },
        _ => longer_gap(text, newlines),
    }
}

/// Reads as much as a gap can go on with, byte by byte.
fn longer_gap(text: &[u8], newlines: bool) -> GapFront
    ensures within { result.length ≤ length text.now }
    ensures taken { gap_state_after newlines Open (take result.length text.now) ≡ Some result.state }
    ensures stops { Stops newlines result.state (drop result.length text.now) }
{
    let mut state = GapState::Open;
    let mut at = 0;
    'bytes: while at < text.len() {
        match state.step(newlines, text[at]) {
            None => return GapFront { length: at, state },
            Some(next) => {
                at = run(next, text, at + 1);
                state = next;
            }
        }
    }
    GapFront {
        length: text.len(),
        state,
    }
}

/// The first byte from this one on with which the state does not surely stay, or the end.
#[inline(always)]
fn stay(state: GapState, text: &[u8], from: usize) -> usize
    requires { from ≤ length text.now }
    ensures above { from ≤ result }
    ensures within { result ≤ length text.now }
    ensures stays { (newlines : Bool) (k : ℕ) → from ≤ k → k < result → gap_move newlines state (get_or text.now k 0) ≡ Some state }
{
    for at in from..text.len() {
        if !state.stays(text[at]) {
            return at;
        }
    }
    text.len()
}

/// The first byte from this one on that does not simply go on with spaces or with a comment, or the end. Each has a loop of its own.
fn run(state: GapState, text: &[u8], from: usize) -> usize
    requires { from ≤ length text.now }
    ensures above { from ≤ result }
    ensures within { result ≤ length text.now }
    ensures stays { (newlines : Bool) (k : ℕ) → from ≤ k → k < result → gap_move newlines state (get_or text.now k 0) ≡ Some state }
{
    match state {
        GapState::Open => stay(GapState::Open, text, from),
        GapState::Comment => stay(GapState::Comment, text, from),
        GapState::Escape | GapState::EscapeReturn => from,
    }
}
