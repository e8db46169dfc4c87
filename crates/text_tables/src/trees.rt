//! Texts, and the tree that the grammar gives them.

use crate::tree_text::show_bodies;
use c_lexer::tokens;
use c_parser::parse;
use c_tree::item::{Item, Marked};
use std::alloc::{AllocError, Global};
use std::test::Fail;

/// What `parse` answers for a text: the bodies of its functions, or that it is refused.
fn answer(alloc: Global, text: &str) -> Result<String, AllocError> {
    let Ok(list) = tokens(alloc, text.as_bytes()) else {
        return String::from_str(alloc, "no tokens");
    };
    let Ok(ast) = parse(alloc, &list) else {
        return String::from_str(alloc, "no tree");
    };
    let mut out = String::new(alloc);
    show_bodies(alloc, &mut out, &ast)?;
    Ok(out)
}

/// The rows whose text, between two others, isn't answered as they say.
fn wrong_rows(
    alloc: Global,
    before: &str,
    rows: &[(&str, &str)],
    after: &str,
) -> Result<String, AllocError> {
    let mut wrong = String::new(alloc);
    for (text, want) in rows {
        let whole = format!(in alloc; "{before}{text}{after}")?;
        let found = answer(alloc, whole.as_str())?;
        if found.as_str() != *want {
            let row = format!(in alloc; "{text} gives {}, not {want}. ", found.as_str())?;
            wrong.push_str(row.as_str())?;
        }
    }
    Ok(wrong)
}

#[test]
fn operators_and_their_groups(rt: HostRuntime) -> Result<(), Fail> {
    let wrong = wrong_rows(rt.alloc(), "void f() {", &EXPRESSIONS, "}")?;
    assert!(rt; wrong.is_empty(), "{}", wrong.as_str());
    Ok(())
}

#[test]
fn statements_and_their_trees(rt: HostRuntime) -> Result<(), Fail> {
    let wrong = wrong_rows(rt.alloc(), "void f() {", &STATEMENTS, "}")?;
    assert!(rt; wrong.is_empty(), "{}", wrong.as_str());
    Ok(())
}

#[test]
fn items(rt: HostRuntime) -> Result<(), Fail> {
    let wrong = wrong_rows(rt.alloc(), "", &ITEMS, "")?;
    assert!(rt; wrong.is_empty(), "{}", wrong.as_str());
    Ok(())
}

/// Bodies of a function, and of each the place among the whole function's tokens of the one that is
/// refused.
const REFUSED: [(&str, u64); 22] = [
    ("do { a--; } while (a > 0) return 1;", 17),
    ("do a--; while (a > 0); break;", 16),
    ("do a--; while (a > 0); continue;", 16),
    ("do while (a);", 11),
    ("do ; ;", 7),
    ("do ; (a);", 7),
    ("do ; while a;", 8),
    ("do ; while ();", 9),
    ("while (a) do ;", 11),
    ("enum { A };", 5),
    ("int64_t x += 1;", 7),
    ("x *= ;", 7),
    ("x <<= a >>= b;", 8),
    ("x = a ? b;", 10),
    ("x = a ? : c;", 9),
    ("x = ? b : c;", 7),
    ("x = a ? b : ;", 11),
    ("x = a : b;", 8),
    ("x = a ? b : c : d;", 12),
    ("x = (a ? b) : c;", 11),
    ("a ? b : c;", 6),
    ("a: x = 1;", 6),
];

/// What `parse` says of a function with such a body.
fn refusal(alloc: Global, body: &str) -> Result<String, AllocError> {
    let text = format!(in alloc; "void f() {{{body}}}")?;
    let Ok(list) = tokens(alloc, text.as_bytes()) else {
        return String::from_str(alloc, "no tokens");
    };
    match parse(alloc, &list) {
        Ok(_) => String::from_str(alloc, "a tree"),
        Err(fault) => format!(in alloc; "{fault:?}"),
    }
}

#[test]
fn refused_tokens(rt: HostRuntime) -> Result<(), Fail> {
    for (body, place) in REFUSED {
        let found = refusal(rt.alloc(), body)?;
        let want = format!(in rt.alloc(); "Syntax({place})")?;
        assert_eq!(rt; found.as_str(), want.as_str(), "{body}");
    }
    Ok(())
}

/// Texts, and for each of their functions `p` where it is plain, `t` where it is a transaction, `r`
/// where it is one that rolls back, and `c` where it is one that only looks.
const MARKED: [(&str, &str); 10] = [
    ("", ""),
    ("void f() {}", "p"),
    ("tx void f() {}", "t"),
    ("tx abort void f() {}", "r"),
    ("tx const void f() {}", "c"),
    (
        "tx const struct S *f() {} tx const int64_t g() {} tx int64_t h() {}",
        "cct",
    ),
    (
        "tx abort int64_t f() {} tx int64_t g() {} int64_t h() {}",
        "rtp",
    ),
    (
        "int64_t f() {} tx abort struct S *g() {} struct S *h() {}",
        "prp",
    ),
    (
        "tx int64_t f() { abort(); } tx abort int64_t g() { abort(); }",
        "tr",
    ),
    (
        "struct S { int64_t a; }; tx abort void f() {} persistent struct S root;",
        "r",
    ),
];

/// The marks of a text's functions, a letter each.
fn marks_of(alloc: Global, text: &str) -> Result<String, AllocError> {
    let Ok(list) = tokens(alloc, text.as_bytes()) else {
        return String::from_str(alloc, "no tokens");
    };
    let Ok(ast) = parse(alloc, &list) else {
        return String::from_str(alloc, "no tree");
    };
    let mut marks = String::new(alloc);
    for item in ast.items() {
        if let Item::Function(function) = item {
            marks.push_str(match (function.tx, function.mark) {
                (false, Marked::Plain) => "p",
                (true, Marked::Plain) => "t",
                (true, Marked::Abort) => "r",
                (true, Marked::Const) => "c",
                (false, _) => "?",
            })?;
        }
    }
    Ok(marks)
}

#[test]
fn functions_keep_their_marks(rt: HostRuntime) -> Result<(), Fail> {
    for (text, want) in MARKED {
        let marks = marks_of(rt.alloc(), text)?;
        assert_eq!(rt; marks.as_str(), want, "{text}");
    }
    Ok(())
}

const EXPRESSIONS: [(&str, &str); 79] = [
    ("x = a * b * c;", "x=((a*b)*c);"),
    ("x = a / b / c;", "x=((a/b)/c);"),
    ("x = a % b % c;", "x=((a%b)%c);"),
    ("x = a + b + c;", "x=((a+b)+c);"),
    ("x = a - b - c;", "x=((a-b)-c);"),
    ("x = a << b << c;", "x=((a<<b)<<c);"),
    ("x = a >> b >> c;", "x=((a>>b)>>c);"),
    ("x = a < b < c;", "x=((a<b)<c);"),
    ("x = a <= b <= c;", "x=((a<=b)<=c);"),
    ("x = a > b > c;", "x=((a>b)>c);"),
    ("x = a >= b >= c;", "x=((a>=b)>=c);"),
    ("x = a == b == c;", "x=((a==b)==c);"),
    ("x = a != b != c;", "x=((a!=b)!=c);"),
    ("x = a & b & c;", "x=((a&b)&c);"),
    ("x = a ^ b ^ c;", "x=((a^b)^c);"),
    ("x = a | b | c;", "x=((a|b)|c);"),
    ("x = a && b && c;", "x=((a&&b)&&c);"),
    ("x = a || b || c;", "x=((a||b)||c);"),
    ("x = a ? b : c;", "x=(a?b:c);"),
    ("x = a ? b : c ? d : e;", "x=(a?b:(c?d:e));"),
    ("x = a ? b ? c : d : e;", "x=(a?(b?c:d):e);"),
    ("x = a ? b ? c : d : e ? f : g;", "x=(a?(b?c:d):(e?f:g));"),
    ("x = (a ? b : c) ? d : e;", "x=((a?b:c)?d:e);"),
    ("x = a || b ? c || d : e || f;", "x=((a||b)?(c||d):(e||f));"),
    ("x = -a ? !b : ~c + d;", "x=((-a)?(!b):((~c)+d));"),
    ("x = (a ? b : c) + d;", "x=((a?b:c)+d);"),
    ("x = (a ? b : c)->d;", "x=(a?b:c)->d;"),
    ("x = a[b ? c : d] ? e : f;", "x=(a[(b?c:d)]?e:f);"),
    ("x = a + b * c;", "x=(a+(b*c));"),
    ("x = a * b + c;", "x=((a*b)+c);"),
    ("x = a << b + c;", "x=(a<<(b+c));"),
    ("x = a + b << c;", "x=((a+b)<<c);"),
    ("x = a < b << c;", "x=(a<(b<<c));"),
    ("x = a << b < c;", "x=((a<<b)<c);"),
    ("x = a == b < c;", "x=(a==(b<c));"),
    ("x = a < b == c;", "x=((a<b)==c);"),
    ("x = a & b == c;", "x=(a&(b==c));"),
    ("x = a == b & c;", "x=((a==b)&c);"),
    ("x = a ^ b & c;", "x=(a^(b&c));"),
    ("x = a & b ^ c;", "x=((a&b)^c);"),
    ("x = a | b ^ c;", "x=(a|(b^c));"),
    ("x = a ^ b | c;", "x=((a^b)|c);"),
    ("x = a && b | c;", "x=(a&&(b|c));"),
    ("x = a | b && c;", "x=((a|b)&&c);"),
    ("x = a || b && c;", "x=(a||(b&&c));"),
    ("x = a && b || c;", "x=((a&&b)||c);"),
    ("x = a - b + c;", "x=((a-b)+c);"),
    ("x = a + b - c;", "x=((a+b)-c);"),
    ("x = a * b / c % d;", "x=(((a*b)/c)%d);"),
    ("x = a < b >= c;", "x=((a<b)>=c);"),
    (
        "x = a || b && c | d ^ e & g == h < i << j + k * l;",
        "x=(a||(b&&(c|(d^(e&(g==(h<(i<<(j+(k*l))))))))));",
    ),
    ("x = a * b / c % d * e;", "x=((((a*b)/c)%d)*e);"),
    ("x = a + b - c + d;", "x=(((a+b)-c)+d);"),
    ("x = a << b >> c << d;", "x=(((a<<b)>>c)<<d);"),
    ("x = a < b <= c > d >= e < g;", "x=(((((a<b)<=c)>d)>=e)<g);"),
    ("x = a == b != c == d;", "x=(((a==b)!=c)==d);"),
    ("x = a - b % c;", "x=(a-(b%c));"),
    ("x = a / b - c;", "x=((a/b)-c);"),
    ("x = a >> b - c;", "x=(a>>(b-c));"),
    ("x = a >= b >> c;", "x=(a>=(b>>c));"),
    ("x = a != b >= c;", "x=(a!=(b>=c));"),
    ("x = a & b != c;", "x=(a&(b!=c));"),
    ("x = - a - - b;", "x=((-a)-(-b));"),
    ("x = !(a + b);", "x=(!(a+b));"),
    ("x = (a)->b;", "x=a->b;"),
    ("x = (a + b)[c];", "x=(a+b)[c];"),
    ("x = f(a)[b]->c;", "x=f{9:a,}[b]->c;"),
    ("x = (a + b) * c;", "x=((a+b)*c);"),
    ("x = ((a));", "x=a;"),
    ("x = a - (b - c);", "x=(a-(b-c));"),
    ("x = - - a;", "x=(-(-a));"),
    ("x = !~-a * b;", "x=((!(~(-a)))*b);"),
    ("x = -a->b;", "x=(-a->b);"),
    ("x = a[b + c]->d[0];", "x=a[(b+c)]->d[0];"),
    ("x = root.a->b;", "x=root.a->b;"),
    ("x = f((a), b + c, g());", "x=f{9:a,13:(b+c),17:g{},};"),
    ("x = pm_new(struct S);", "x=new S;"),
    ("x = NULL;", "x=NULL;"),
    ("x = 5;", "x=5;"),
];

const STATEMENTS: [(&str, &str); 65] = [
    (";", ";"),
    ("{}", "{}"),
    ("{;{}}", "{;{}}"),
    ("int64_t x;", "int x;"),
    ("int64_t x = 1 + 2;", "int x=(1+2);"),
    ("struct S *p;", "S*p;"),
    ("struct S *p = NULL;", "S*p=NULL;"),
    ("x += 1;", "x+=1;"),
    ("x -= 1;", "x-=1;"),
    ("x *= 1;", "x*=1;"),
    ("x /= a + b;", "x/=(a+b);"),
    ("x %= 1;", "x%=1;"),
    ("x &= a == b;", "x&=(a==b);"),
    ("x ^= 1;", "x^=1;"),
    ("x |= a || b;", "x|=(a||b);"),
    ("x <<= a << b;", "x<<=(a<<b);"),
    ("x >>= 1;", "x>>=1;"),
    ("root.a[x & 3] ^= b;", "root.a[(x&3)]^=b;"),
    ("x++;", "x++;"),
    ("p->a--;", "p->a--;"),
    ("f();", "call f{};"),
    ("f(1, 2);", "call f{7:1,9:2,};"),
    ("f(1)->a = 2;", "f{7:1,}->a=2;"),
    ("f(1)++;", "f{7:1,}++;"),
    ("f(1) = 2;", "f{7:1,}=2;"),
    ("(x) = 1;", "x=1;"),
    ("((x))++;", "x++;"),
    ("root.a = 1;", "root.a=1;"),
    ("root.a[1]++;", "root.a[1]++;"),
    ("NULL = 1;", "NULL=1;"),
    ("1 = 2;", "1=2;"),
    ("pm_new(struct S)->a = 1;", "new S->a=1;"),
    ("pm_free(p);", "free p;"),
    ("abort();", "abort;"),
    ("return;", "return;"),
    ("return a;", "return a;"),
    ("if (a) b();", "if a<call b{};>"),
    ("if (a) ; else ;", "if a<;|;>"),
    ("if (a) if (b) ; else x();", "if a<if b<;|call x{};>>"),
    ("if (a) { if (b) ; } else x();", "if a<{if b<;>}|call x{};>"),
    (
        "if (a) if (b) ; else ; else x();",
        "if a<if b<;|;>|call x{};>",
    ),
    (
        "if (a) while (b) if (c) ; else x();",
        "if a<while b<if c<;|call x{};>>>",
    ),
    ("if (a) ; else if (b) ; else ;", "if a<;|if b<;|;>>"),
    ("while (a) break;", "while a<break;>"),
    (
        "while (a) { if (b) continue; }",
        "while a<{if b<continue;>}>",
    ),
    ("do ; while (a);", "do<;>while a;"),
    ("do {} while (a); x = 1;", "do<{}>while a;x=1;"),
    ("do x++; while (a - b);", "do<x++;>while (a-b);"),
    ("do break; while (a);", "do<break;>while a;"),
    (
        "do { if (a) continue; } while (b);",
        "do<{if a<continue;>}>while b;",
    ),
    ("do if (a) ; while (b);", "do<if a<;>>while b;"),
    (
        "do if (a) ; else x(); while (b);",
        "do<if a<;|call x{};>>while b;",
    ),
    ("do while (a) ; while (b);", "do<while a<;>>while b;"),
    ("do do ; while (a); while (b);", "do<do<;>while a;>while b;"),
    ("while (a) do ; while (b);", "while a<do<;>while b;>"),
    ("if (a) do ; while (b); else ;", "if a<do<;>while b;|;>"),
    ("for (;;) ;", "for ;;<;>"),
    (
        "for (int64_t i = 0; i < 3; i++) break;",
        "for int i=0;(i<3);i++<break;>",
    ),
    ("for (x = 1; ; f()) {}", "for x=1;;call f{}<{}>"),
    (
        "for (;;) { if (a) break; else continue; }",
        "for ;;<{if a<break;|continue;>}>",
    ),
    ("while (a) ; x = 1;", "while a<;>x=1;"),
    ("if (a) ; x = 1;", "if a<;>x=1;"),
    ("pm_free((p));", "free p;"),
    ("return -1;", "return (-1);"),
    ("for (struct S *p; p; p = p->n) ;", "for S*p;p;p=p->n<;>"),
];

const ITEMS: [(&str, &str); 13] = [
    ("", ""),
    ("struct S { int64_t a; };", ""),
    ("struct S { int64_t a; struct S *n; int64_t t[4]; };", ""),
    ("persistent struct R root;", ""),
    ("struct S *f() { return NULL; }", "return NULL;"),
    ("int64_t f(int64_t a, struct S *b) {}", ""),
    ("void f(void) {}", ""),
    ("tx int64_t f() { return 0; }", "return 0;"),
    ("tx void f() {}", ""),
    ("tx struct S *f() {}", ""),
    ("tx abort int64_t f() { return 0; }", "return 0;"),
    ("tx abort void f() {}", ""),
    ("tx abort struct S *f() {}", ""),
];
