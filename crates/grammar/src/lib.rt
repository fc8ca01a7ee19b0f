// The grammar of typed queries (document 02, §1): its definitions are in specs/, the theorems about them in proofs/.
#![tactic(auto)]

ghost use Rattle.std.specs.Prelude.{◌≡◌};
ghost use Rattle.grammar.specs.Grammar.{elem, name_bytes};

// A byte of a name: a letter, a digit, '-' or '_'.
pub fn is_name_byte(b: u8) -> bool
    ensures { result ≡ elem b name_bytes }
{
    let small = (b'a' <= b) & (b <= b'z');
    let capital = (b'A' <= b) & (b <= b'Z');
    let digit = (b'0' <= b) & (b <= b'9');
    small | (capital | (digit | ((b == b'-') | (b == b'_'))))
}
