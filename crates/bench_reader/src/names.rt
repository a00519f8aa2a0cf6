ghost use Rattle.std.specs.Prelude.{◌≡◌, ◌+◌, ◌≤◌, [], ◌∷◌, nat_lt, if◌then◌else◌, IfOk, IfErr};
ghost use Rattle.bench_reader.specs.Decks.{is_long};
ghost use Rattle.bench_reader.specs.Statements.{CountsNames};

use crate::faults::SYNTAX;
use crate::words::is_name;
use kdg_text::{LineFault, Tokens};

pub(crate) const MOST_NAME_BYTES: usize = 64;

pub(crate) const MOST_FAN_INS: usize = 255;

pub(crate) const OPENING: &[u8] = b"(";

pub(crate) const CLOSING: &[u8] = b")";

const COMMA: &[u8] = b",";

/// What is known of the names of a gate's fan-ins.
#[derive(Clone, Copy)]
pub(crate) struct Names<'a> {
    /// How many there are, or 256 where there are more.
    pub(crate) count: usize,
    /// Whether one of them is longer than a name may be.
    pub(crate) has_long: bool,
    /// The last of them.
    pub(crate) last: &'a [u8],
}

/// The next token of a line that has to have one.
pub(crate) fn token<'a>(tokens: &mut Tokens<'a>) -> Result<&'a [u8], LineFault>
    ensures found { IfOk result (λ token. tokens.old ≡ token.now ∷ tokens.new) }
    ensures none { IfErr result (λ fault. (fault ≡ SYNTAX) × (tokens.old ≡ [])) }
{
    tokens.next_token().ok_or(SYNTAX)
}

/// Whether a name is longer than a name may be.
pub(crate) fn is_long(name: &[u8]) -> bool
    ensures { result ≡ is_long name.now }
{
    MOST_NAME_BYTES < name.len()
}

/// Goes over names with a comma between each two, up to the closing mark that ends the line.
pub(crate) fn count_names<'a>(tokens: &mut Tokens<'a>) -> Result<Names<'a>, LineFault>
    ensures { CountsNames result tokens.old }
{
    let mut count = 0;
    let mut has_long = false;
    loop {
        let name = token(tokens)?;
        let mark = token(tokens)?;
        if !is_name(name) {
            return Err(SYNTAX);
        }
        count = one_more(count);
        has_long = has_long || is_long(name);
        if mark != COMMA {
            let at_end = mark == CLOSING && tokens.next_token().is_none();
            return if at_end {
                Ok(Names {
                    count,
                    has_long,
                    last: name,
                })
            } else {
                Err(SYNTAX)
            };
        }
    }
}

/// One more, up to one more than a gate may have.
fn one_more(count: usize) -> usize
    requires { count ≤ 256 }
    ensures { result ≡ (if nat_lt 255 count then count else count + 1) }
{
    if MOST_FAN_INS < count {
        count
    } else {
        count + 1
    }
}
