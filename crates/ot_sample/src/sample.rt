//! The sample article.
ghost use Rattle.std.specs.Prelude.{◌≡◌, ◌≤◌, ◌++◌, ◌==◌, cond, OnOk, OnErr};
ghost use Rattle.ot_sample.specs.Sample.{lines, number, opening, doubled, redex, equality, exported, sample};

use itoa::Buffer;
use ot_logic::Memory;

/// The operator `->`, and the types `A`, `A -> A` and `A -> (A -> A)`.
const TYPES: [&[u8]; 2] = [
    b"6 version \"->\" typeOp 0 def pop \"A\" varType 1 def pop ",
    b"0 ref 1 ref 1 ref nil cons cons opType 2 def pop 0 ref 1 ref 2 ref nil cons cons opType 3 def pop ",
];

/// The terms `f`, `x` and `y`, and the variable `x`.
const VARIABLES: &[u8] =
    b"\"f\" 3 ref var varTerm 4 def pop \"x\" 1 ref var 5 def varTerm 6 def pop \"y\" 1 ref var varTerm 7 def pop ";

/// No hypothesis, and the constant `=` at `A`.
const EQUALITY: &[u8] =
    b"nil \"=\" const 0 ref 1 ref 0 ref 1 ref \"bool\" typeOp nil opType nil cons cons opType nil cons cons opType constTerm ";

/// Appends the sample article: a term that doubles `n` times, put for the variable of an abstraction. After running out
/// of memory `out` is as it was. The contract says which text it is; that the article is accepted, with one theorem and
/// neither assumption nor definition, is tested.
pub fn sample_article(n: u64, out: &mut Vec<u8>) -> Result<(), Memory>
    requires { n ≤ 1000 }
    ensures ok { OnOk result (out.new.items ≡ out.old.items ++ sample n) }
    ensures err { OnErr result (out.new.items ≡ out.old.items) }
{
    let mut text = Vec::new(*out.allocator());
    push_opening(&mut text)?;
    for k in 0..n {
        push_doubled(6 + 2 * k, 8 + 2 * k, &mut text)?;
        push_doubled(7 + 2 * k, 9 + 2 * k, &mut text)?;
    }
    push_redex(6 + 2 * n, 8 + 2 * n, &mut text)?;
    push_lines(EQUALITY, &mut text)?;
    push_exported(8 + 2 * n, 7 + 2 * n, &mut text)?;
    out.extend_from_slice(&text)?;
    Ok(())
}

/// Appends what comes before the terms that are doubled.
fn push_opening(out: &mut Vec<u8>) -> Result<(), Memory>
    ensures { OnOk result (out.new.items ≡ out.old.items ++ opening) }
{
    push_lines(TYPES[0], out)?;
    push_lines(TYPES[1], out)?;
    push_lines(VARIABLES, out)
}

/// Appends `f` applied twice to the entry `a`, as the entry `b`.
fn push_doubled(a: u64, b: u64, out: &mut Vec<u8>) -> Result<(), Memory>
    ensures { OnOk result (out.new.items ≡ out.old.items ++ doubled a b) }
{
    push_lines(b"4 ref ", out)?;
    push_number(a, out)?;
    push_lines(b"ref appTerm ", out)?;
    push_number(a, out)?;
    push_lines(b"ref appTerm ", out)?;
    push_number(b, out)?;
    push_lines(b"def pop ", out)
}

/// Appends `refl` of the entry `t`, and the redex that is the entry `r`, with its theorem.
fn push_redex(t: u64, r: u64, out: &mut Vec<u8>) -> Result<(), Memory>
    ensures { OnOk result (out.new.items ≡ out.old.items ++ redex t r) }
{
    push_number(t, out)?;
    push_lines(b"ref refl pop 5 ref ", out)?;
    push_number(t, out)?;
    push_lines(b"ref absTerm 7 ref appTerm ", out)?;
    push_number(r, out)?;
    push_lines(b"def betaConv ", out)
}

/// Appends the export of the equation of the entries `r` and `s`.
fn push_exported(r: u64, s: u64, out: &mut Vec<u8>) -> Result<(), Memory>
    ensures { OnOk result (out.new.items ≡ out.old.items ++ exported r s) }
{
    push_number(r, out)?;
    push_lines(b"ref appTerm ", out)?;
    push_number(s, out)?;
    push_lines(b"ref appTerm thm ", out)
}

/// Appends words, a line each: a newline in place of each space.
fn push_lines(words: &[u8], out: &mut Vec<u8>) -> Result<(), Memory>
    ensures { OnOk result (out.new.items ≡ out.old.items ++ lines words.now) }
{
    for byte in words {
        out.push(broken(*byte))?;
    }
    Ok(())
}

/// A newline for a space, and else the byte.
fn broken(byte: u8) -> u8
    ensures { result ≡ cond (byte == 32) 10 byte }
{
    if byte == b' ' { b'\n' } else { byte }
}

/// Appends a line with a number.
fn push_number(k: u64, out: &mut Vec<u8>) -> Result<(), Memory>
    ensures { OnOk result (out.new.items ≡ out.old.items ++ number k) }
{
    let mut buffer = Buffer::new();
    out.extend_from_slice(buffer.format(k).as_bytes())?;
    out.push(b'\n')?;
    Ok(())
}
