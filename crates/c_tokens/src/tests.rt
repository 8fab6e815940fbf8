//! Texts, and the tokens that C reads in each (ISO C11, 6.4).
use crate::tables::{KEYWORDS, OPERATORS, Row};
use crate::{Kind, Token, TokenFault, tokens};
use std::alloc::{AllocError, Global};
use std::test::Fail;

// The spelling of a kind, if a row of the table has it.
fn spelled(kind: &Kind, rows: &'static [Row]) -> Option<&'static str> {
    for (spelling, fixed) in rows {
        if let Some(fixed) = fixed {
            if kind.is(*fixed) {
                return Some(*spelling);
            }
        }
    }
    None
}

// Writes a kind as its spelling; a name has quotes around it, and a constant is its value.
fn show_kind(kind: &Kind, out: &mut String) -> Result<(), AllocError> {
    match kind {
        Kind::MarkWord => out.push_str("__mark"),
        Kind::Word(name) => write!(out, "'{}'", name.text()),
        Kind::Constant(value) => write!(out, "{value}"),
        kind => {
            let operator = spelled(kind, OPERATORS.as_slice()).unwrap_or("?");
            out.push_str(spelled(kind, KEYWORDS.as_slice()).unwrap_or(operator))
        }
    }
}

// Writes the tokens with spaces between them, each with its line and its column.
fn show_tokens(tokens: &[Token], out: &mut String) -> Result<(), AllocError> {
    let mut gap = "";
    for token in tokens {
        out.push_str(gap)?;
        show_kind(&token.kind, out)?;
        write!(out, "@{}:{}", token.line, token.column)?;
        gap = " ";
    }
    Ok(())
}

fn show_fault(fault: &TokenFault, out: &mut String) -> Result<(), AllocError> {
    match fault {
        TokenFault::NoToken { line, column } => write!(out, "no token {line}:{column}"),
        TokenFault::Unsupported { word, line, column } => {
            write!(out, "unsupported {} {line}:{column}", word.text())
        }
        TokenFault::LiteralRange { line, column } => write!(out, "range {line}:{column}"),
        TokenFault::Memory => Err(AllocError),
    }
}

// What a text has: its tokens, or its fault.
fn shown(alloc: Global, text: &[u8]) -> Result<String, AllocError> {
    let mut out = String::new(alloc);
    if text.len() > 65536 {
        return Ok(out);
    }
    match tokens(alloc, text) {
        Ok(tokens) => show_tokens(&tokens, &mut out)?,
        Err(fault) => show_fault(&fault, &mut out)?,
    }
    Ok(out)
}

const TEXTS: [(&[u8], &str); 51] = [
    // Nothing but gaps.
    (b"", ""),
    (b" \t\n\r\x0b\x0c", ""),
    (b"// a", ""),
    (b"/* a", "no token 1:1"),
    (b"/**/", ""),
    (b"/***/", ""),
    (b"#include <stdio.h>", ""),
    // Names and keywords.
    (b"int f", "int@1:1 'f'@1:5"),
    (
        b"ints Int _int in t",
        "'ints'@1:1 'Int'@1:6 '_int'@1:10 'in'@1:15 't'@1:18",
    ),
    (b"a1_B9", "'a1_B9'@1:1"),
    (b"__mark __mark1", "__mark@1:1 '__mark1'@1:8"),
    // Longest matches.
    (b"a<=b", "'a'@1:1 <=@1:2 'b'@1:4"),
    (b"a+++b", "'a'@1:1 ++@1:2 +@1:4 'b'@1:5"),
    (b"a---b", "'a'@1:1 --@1:2 -@1:4 'b'@1:5"),
    (b"===", "==@1:1 =@1:3"),
    (b"&&&", "&&@1:1 &@1:3"),
    (b"+==", "+=@1:1 =@1:3"),
    (b"! =!=", "!@1:1 =@1:3 !=@1:4"),
    (b"?:<:", "unsupported <: 1:3"),
    // Division, and the comments that begin as it does.
    (b"a/b", "'a'@1:1 /@1:2 'b'@1:3"),
    (b"a/ /b", "'a'@1:1 /@1:2 /@1:4 'b'@1:5"),
    (b"a/ *b", "'a'@1:1 /@1:2 *@1:4 'b'@1:5"),
    (b"a//b", "'a'@1:1"),
    (b"a/*c*/b", "'a'@1:1 'b'@1:7"),
    (b"a /=b", "'a'@1:1 /=@1:3 'b'@1:5"),
    (b"a/=/b", "'a'@1:1 /=@1:2 /@1:4 'b'@1:5"),
    (b"a%=b%c", "'a'@1:1 %=@1:2 'b'@1:4 %@1:5 'c'@1:6"),
    (b"a%%=b", "'a'@1:1 %@1:2 %=@1:3 'b'@1:5"),
    (
        b"int f(int a){return a / 2;}",
        "int@1:1 'f'@1:5 (@1:6 int@1:7 'a'@1:11 )@1:12 {@1:13 return@1:14 'a'@1:21 /@1:23 2@1:25 \
        ;@1:26 }@1:27",
    ),
    // Constants.
    (
        b"0 00 7 10 017 0x1F 0Xff",
        "0@1:1 0@1:3 7@1:6 10@1:8 15@1:11 31@1:15 255@1:20",
    ),
    (
        b"1l 1L 1ll 1LL 0l 0x1L 07ll",
        "1@1:1 1@1:4 1@1:7 1@1:11 0@1:15 1@1:18 7@1:23",
    ),
    (b"0xE+1", "14@1:1 +@1:4 1@1:5"),
    (b"1-1", "1@1:1 -@1:2 1@1:3"),
    (b"9223372036854775807", "9223372036854775807@1:1"),
    (b"0x7fffffffffffffff", "9223372036854775807@1:1"),
    (b"0777777777777777777777", "9223372036854775807@1:1"),
    (b"0000000000000000000000000000001", "1@1:1"),
    // Comments.
    (b"a/* b */c", "'a'@1:1 'c'@1:9"),
    (b"a/* \" ' \\ @ \xff // */c", "'a'@1:1 'c'@1:20"),
    (b"a/*\n*/ b", "'a'@1:1 'b'@2:4"),
    (b"a/*/ b */c", "'a'@1:1 'c'@1:10"),
    (b"a// b /* \xc3\x28\nc", "'a'@1:1 'c'@2:1"),
    (b"/* /* */ a", "'a'@1:10"),
    // Lines that are skipped.
    (b"#include <a.h> /* b\nc", "'c'@2:1"),
    (b" \t#\t include\"a\"\nc", "'c'@2:1"),
    (b"a\n  # include\nb", "'a'@1:1 'b'@3:1"),
    // Lines and columns.
    (b"\n\n  a\n\tb", "'a'@3:3 'b'@4:2"),
    (b"a\r\nb\x0cc", "'a'@1:1 'b'@2:1 'c'@2:3"),
    (
        b"int f(int a){\n  return a;}",
        "int@1:1 'f'@1:5 (@1:6 int@1:7 'a'@1:11 )@1:12 {@1:13 return@2:3 'a'@2:10 ;@2:11 }@2:12",
    ),
    (
        b"/* long */ __mark(3) & (i < n);",
        "__mark@1:12 (@1:18 3@1:19 )@1:20 &@1:22 (@1:24 'i'@1:25 <@1:27 'n'@1:29 )@1:30 ;@1:31",
    ),
    // A file as users write it.
    (
        b"#include <assert.h>\nextern int __mark(int);\n/* a\n sum */\nint f(int n) {\n\
        \x20 int i = 1;\n\x20 while (__mark(42) & (i <= n)) { s += i; i++; }\n}\n",
        "extern@2:1 int@2:8 __mark@2:12 (@2:18 int@2:19 )@2:22 ;@2:23 \
        int@5:1 'f'@5:5 (@5:6 int@5:7 'n'@5:11 )@5:12 {@5:14 \
        int@6:3 'i'@6:7 =@6:9 1@6:11 ;@6:12 \
        while@7:3 (@7:9 __mark@7:10 (@7:16 42@7:17 )@7:19 &@7:21 \
        (@7:23 'i'@7:24 <=@7:26 'n'@7:29 )@7:30 )@7:31 \
        {@7:33 's'@7:35 +=@7:37 'i'@7:40 ;@7:41 'i'@7:43 ++@7:44 ;@7:46 }@7:48 }@8:1",
    ),
];

const FAULTS: [(&[u8], &str); 45] = [
    // Bytes that start no token.
    (b"a \" b", "no token 1:3"),
    (b"'a'", "no token 1:1"),
    (b"\\", "no token 1:1"),
    (b"a@", "no token 1:2"),
    (b"$a", "no token 1:1"),
    (b"`", "no token 1:1"),
    (b"\x00", "no token 1:1"),
    (b"a\n \x80", "no token 2:2"),
    (b"\xff", "no token 1:1"),
    (b"int f(int a){return \"a\";}", "no token 1:21"),
    (b"int f(int a){return a << 2;}", "unsupported << 1:23"),
    (b"a%>", "unsupported %> 1:2"),
    (b"a%:b", "unsupported %: 1:2"),
    // Malformed constants.
    (b"08", "no token 1:1"),
    (b"0x", "no token 1:1"),
    (b"0xg", "no token 1:1"),
    (b"0xl", "no token 1:1"),
    (b"5u", "no token 1:1"),
    (b"1.5", "no token 1:1"),
    (b"1.", "no token 1:1"),
    (b"1lL", "no token 1:1"),
    (b"1lll", "no token 1:1"),
    (b"12a", "no token 1:1"),
    (b"1_", "no token 1:1"),
    (b"a 09.5", "no token 1:3"),
    (b"9223372036854775808u", "no token 1:1"),
    // Constants that are too great.
    (b"9223372036854775808", "range 1:1"),
    (b"int f(int a){return 9223372036854775808;}", "range 1:21"),
    (b"a\n\t0x8000000000000000", "range 2:2"),
    (b"01000000000000000000000", "range 1:1"),
    (b"99999999999999999999999999999999999999999L", "range 1:1"),
    // Comments and lines.
    (b"a /*/", "no token 1:3"),
    (b"a /* * /", "no token 1:3"),
    (b"a #include", "unsupported # 1:3"),
    (b"#includes", "unsupported # 1:1"),
    (b"#define", "unsupported # 1:1"),
    (b"##include", "unsupported ## 1:1"),
    (b"/* */ #include", "unsupported # 1:7"),
    (b"\r#include", "unsupported # 1:2"),
    (b"\x0b#include", "unsupported # 1:2"),
    (b"\x0c#include", "unsupported # 1:2"),
    // The first of two.
    (b"float @", "unsupported float 1:1"),
    (b"@ float", "no token 1:1"),
    (
        b"int f(int a){\n  float b; return a;}",
        "unsupported float 2:3",
    ),
    (b".5", "unsupported . 1:1"),
];

#[test]
fn texts_have_tokens_as_in_c(rt: HostRuntime) -> Result<(), Fail> {
    for table in [TEXTS.as_slice(), FAULTS.as_slice()] {
        for (text, wanted) in table {
            assert_eq!(rt; shown(rt.alloc(), text)?.as_str(), *wanted, "{wanted}");
        }
    }
    Ok(())
}

// What stands for a row of the program's tables.
fn wanted(alloc: Global, row: &Row) -> Result<String, AllocError> {
    match row.1 {
        Some(_) => format!(in alloc; "{}@1:1", row.0),
        None => format!(in alloc; "unsupported {} 1:1", row.0),
    }
}

#[test]
fn each_keyword_and_operator_is_in_the_profile_or_not(rt: HostRuntime) -> Result<(), Fail> {
    for table in [KEYWORDS.as_slice(), OPERATORS.as_slice()] {
        for row in table {
            let wanted = wanted(rt.alloc(), row)?;
            assert_eq!(rt;
                shown(rt.alloc(), row.0.as_bytes())?.as_str(),
                wanted.as_str()
            );
        }
    }
    Ok(())
}

// A text of 65,536 bytes: 26 bytes, a comment's bytes, and its end.
fn longest(alloc: Global) -> Result<Vec<u8>, AllocError> {
    let mut text = b"int f(int a){return a;}/*".to_vec(alloc)?;
    for _ in 0..65_509 {
        text.push(b'x')?;
    }
    text.extend_from_slice(b"*/".as_slice())?;
    Ok(text)
}

#[test]
fn a_comment_may_fill_the_longest_text(rt: HostRuntime) -> Result<(), Fail> {
    let text = longest(rt.alloc())?;
    let wanted =
        "int@1:1 'f'@1:5 (@1:6 int@1:7 'a'@1:11 )@1:12 {@1:13 return@1:14 'a'@1:21 ;@1:22 }@1:23";
    assert!(rt; text.len() == 65_536);
    assert_eq!(rt; shown(rt.alloc(), &text)?.as_str(), wanted);
    Ok(())
}
