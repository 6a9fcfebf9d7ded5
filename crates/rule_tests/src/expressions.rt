//! Expressions as they are written, and their faults.
ghost use Rattle.std.specs.Prelude.{◌≡◌, IfOk};
ghost use Rattle.policy_expr.specs.Policy.{policy_of};
ghost use Rattle.policy_expr.specs.Sizes.{leaf_count};

use cv_io::{Bytes, List, Text};
use policy_expr::{Expr, ExprFault, MemberName, parse};
use std::alloc::Global;
use std::process::Abort;
use std::test::*;

fn text(alloc: Global, bytes: &[u8]) -> Result<Text, Fail> {
    Ok(Text::from_bytes(Bytes::from_slice(alloc, bytes)?)?)
}

/// Members by their names, numbered from 0. The name lb stands for one that may rewrite.
fn members(alloc: Global, names: &[&[u8]]) -> Result<List<MemberName>, Fail> {
    let mut list = List::new(alloc);
    for (i, name) in names.iter().enumerate() {
        list.push(MemberName {
            name: text(alloc, name)?,
            index: u32::try_from(i)?,
            plain: *name != b"lb".as_slice(),
        })?;
    }
    Ok(list)
}

/// The expression with each composition in parentheses.
fn shown(alloc: Global, expr: &Expr) -> Result<String, Fail> {
    let (left, sign, right) = match expr {
        Expr::Member { index } => return Ok(format!(in alloc; "{index}")?),
        Expr::Par { left, right } => (left, "+", right),
        Expr::Seq { left, right } => (left, ">>", right),
        Expr::Over { left, right } => (left, "|>", right),
    };
    let left = shown(alloc, left)?;
    let right = shown(alloc, right)?;
    Ok(format!(in alloc; "({left} {sign} {right})")?)
}

/// The fault with its name or number.
fn told(alloc: Global, fault: &ExprFault) -> Result<String, Fail> {
    let (kind, name) = match fault {
        ExprFault::Syntax { at } => return Ok(format!(in alloc; "Syntax {at}")?),
        ExprFault::TooMany { leaves } => return Ok(format!(in alloc; "TooMany {leaves}")?),
        ExprFault::Memory => return Ok(format!(in alloc; "Memory")?),
        ExprFault::Unknown { name } => ("Unknown", name),
        ExprFault::Twice { name } => ("Twice", name),
        ExprFault::Unused { name } => ("Unused", name),
        ExprFault::ParallelLeft { name } => ("ParallelLeft", name),
    };
    let mut told = format!(in alloc; "{kind} ")?;
    for byte in name.as_bytes() {
        told.push(char::from(*byte))?;
    }
    Ok(told)
}

/// What parsing the text gives.
fn parsed(alloc: Global, members: &List<MemberName>, text: &Text) -> Result<String, Fail> {
    match parse(alloc, text, members) {
        Ok(expr) => shown(alloc, &expr),
        Err(fault) => told(alloc, &fault),
    }
}

/// What parsing the text over members of these names gives.
fn outcome(alloc: Global, names: &[&[u8]], bytes: &[u8]) -> Result<String, Fail> {
    let text = text(alloc, bytes)?;
    let members = members(alloc, names)?;
    let outcome = parsed(alloc, &members, &text);
    drop(members);
    outcome
}

/// Parsing each text over members of these names gives this.
fn outcomes(
    rt: &(impl Abort + AllocGlobal),
    names: &[&[u8]],
    cases: &[(&[u8], &str)],
) -> Result<(), Fail> {
    for (bytes, want) in cases {
        let found = outcome(rt.alloc(), names, bytes)?;
        assert_eq!(rt; found.as_str(), *want);
    }
    Ok(())
}

#[test]
fn two_members(rt: HostRuntime) -> Result<(), Fail> {
    let cases: [(&[u8], &str); 16] = [
        (b"mon + ", "Syntax 6"),
        (b"mon + fw", "Unknown fw"),
        (b"mon + mon", "Twice mon"),
        (b"mon", "Unused rt"),
        (b"mon + rt", "(0 + 1)"),
        (b" mon>>rt ", "(0 >> 1)"),
        (b"", "Syntax 0"),
        (b"mon rt", "Syntax 4"),
        (b"mon > rt", "Syntax 4"),
        (b"mon | rt", "Syntax 4"),
        (b"mon\t+ rt", "Syntax 3"),
        (b"Mon + rt", "Syntax 0"),
        (b"(mon + rt", "Syntax 9"),
        (b"mon + rt)", "Syntax 8"),
        (b"fw + x + )", "Syntax 9"),
        (b"mon + abcdefghijklmnopq", "Syntax 6"),
    ];
    outcomes(&rt, &[b"mon", b"rt"], &cases)
}

#[test]
fn three_members(rt: HostRuntime) -> Result<(), Fail> {
    let cases: [(&[u8], &str); 9] = [
        (b"mon |> rt |> lb", "((0 |> 1) |> 2)"),
        (b"mon |> (rt |> lb)", "(0 |> (1 |> 2))"),
        (b"mon >> rt >> lb", "((0 >> 1) >> 2)"),
        (b"mon + rt >> lb", "(0 + (1 >> 2))"),
        (b"mon >> rt + lb", "((0 >> 1) + 2)"),
        (b"lb |> mon + rt", "(2 |> (0 + 1))"),
        (b"mon + lb + rt", "ParallelLeft lb"),
        (b"(mon |> lb) + rt", "ParallelLeft lb"),
        (b"rt + mon", "Unused lb"),
    ];
    outcomes(&rt, &[b"mon", b"rt", b"lb"], &cases)?;
    outcomes(&rt, &[b"lb", b"rt"], &[(b"lb + rt", "ParallelLeft lb")])
}

/// A name in so many parentheses.
fn nested(alloc: Global, depth: usize) -> Result<String, Fail> {
    let open = "(".repeat(alloc, depth)?;
    let close = ")".repeat(alloc, depth)?;
    Ok(format!(in alloc; "{open}mon{close}")?)
}

#[test]
fn depths(rt: HostRuntime) -> Result<(), Fail> {
    for (depth, want) in [(32, "0"), (33, "Syntax 32")] {
        let text = nested(rt.alloc(), depth)?;
        outcomes(&rt, &[b"mon"], &[(text.as_bytes(), want)])?;
    }
    Ok(())
}

/// A name and so many spaces.
fn padded(alloc: Global, spaces: usize) -> Result<String, Fail> {
    let spaces = " ".repeat(alloc, spaces)?;
    Ok(format!(in alloc; "mon{spaces}")?)
}

/// A text has up to 1024 bytes.
#[test]
fn lengths(rt: HostRuntime) -> Result<(), Fail> {
    for (spaces, want) in [(1_021, "0"), (1_022, "Syntax 1024")] {
        let text = padded(rt.alloc(), spaces)?;
        outcomes(&rt, &[b"mon"], &[(text.as_bytes(), want)])?;
    }
    Ok(())
}

const NAMES: [&[u8]; 13] = [
    b"a", b"b", b"c", b"d", b"e", b"f", b"g", b"h", b"i", b"j", b"k", b"l", b"m",
];

#[test]
fn twelve_members(rt: HostRuntime) -> Result<(), Fail> {
    let text = outcome(rt.alloc(), &NAMES[..12], b"a+b+c+d+e+f+g+h+i+j+k+l")?;
    assert_eq!(rt; text.len(), 69);
    Ok(())
}

#[test]
fn thirteen_members(rt: HostRuntime) -> Result<(), Fail> {
    outcomes(&rt, &NAMES, &[(b"a+b+c+d+e+f+g+h+i+j+k+l+m", "TooMany 13")])
}

/// Two members side by side.
fn pair(alloc: Global) -> Result<Expr, Fail>
    ensures { IfOk result (λ expr. leaf_count (policy_of expr) ≡ 2) }
{
    let left = Box::new(alloc, Expr::Member { index: 0 })?;
    let right = Box::new(alloc, Expr::Member { index: 1 })?;
    Ok(Expr::Par { left, right })
}

/// A third member after two.
fn chained(alloc: Global, first: Expr) -> Result<Expr, Fail>
    requires { leaf_count (policy_of first) ≡ 2 }
    ensures { IfOk result (λ expr. leaf_count (policy_of expr) ≡ 3) }
{
    let right = Box::new(alloc, Expr::Member { index: 2 })?;
    let left = Box::new(alloc, first)?;
    Ok(Expr::Seq { left, right })
}

/// The copy of an expression.
fn copy_shown(alloc: Global, expr: &Expr) -> Result<String, Fail> {
    let copied = expr.copy()?;
    let text = shown(alloc, &copied);
    drop(copied);
    text
}

#[test]
fn copies(rt: HostRuntime) -> Result<(), Fail> {
    let pair = pair(rt.alloc())?;
    let text = copy_shown(rt.alloc(), &pair);
    drop(pair);
    assert_eq!(rt; text?.as_str(), "(0 + 1)");
    Ok(())
}

/// 8 and 8 levels side by side make 15, and before 4 they make 60.
#[test]
fn sizes(rt: HostRuntime) -> Result<(), Fail> {
    let bits = List::from_slice(rt.alloc(), &[3, 3, 2])?;
    let chain = chained(rt.alloc(), pair(rt.alloc())?)?;
    let size = chain.size(&bits);
    drop(chain);
    assert_eq!(rt; size, 60);
    Ok(())
}
