//! What functions return. The results are those of a C compiler (gcc 12.2), with `long long` for
//! `int`.
use super::runs::{both_ways, function};
use c_ast::Outcome;
use std::alloc::{AllocError, Global};
use std::test::Fail;

/// A text, the inputs of its runs one after the other, and what these return.
type Row = (&'static str, &'static [i128], &'static str);

const SIGNED: &[i128] = &[-8, -7, -3, -1, 0, 1, 4, 7];

const SMALL: &[i128] = &[0, 1, 2, -1, 7];

const PAIRS: &[i128] = &[7, 2, -7, 2, 7, -2, -7, -2, 0, 5, -1, -6];

/// All pairs of the small ones, the first changing fastest.
#[rattlefmt::skip]
const SMALL_PAIRS: &[i128] = &[
    0, 0, 1, 0, 2, 0, -1, 0, 7, 0,
    0, 1, 1, 1, 2, 1, -1, 1, 7, 1,
    0, 2, 1, 2, 2, 2, -1, 2, 7, 2,
    0, -1, 1, -1, 2, -1, -1, -1, 7, -1,
    0, 7, 1, 7, 2, 7, -1, 7, 7, 7,
];

#[rattlefmt::skip]
const DIVISIONS: [Row; 70] = [
    // Operands of both signs, and divisors with signs and brackets.
    ("int f(int a){return a / 3;}", SIGNED, "-2 -2 -1 0 0 0 1 2"),
    ("int f(int a){return a / -3;}", SIGNED, "2 2 1 0 0 0 -1 -2"),
    ("int f(int a){return a % 3;}", SIGNED, "-2 -1 0 -1 0 1 1 1"),
    ("int f(int a){return a % -3;}", SIGNED, "-2 -1 0 -1 0 1 1 1"),
    ("int f(int a){return -a / 3;}", SIGNED, "2 2 1 0 0 0 -1 -2"),
    ("int f(int a){return -a % 3;}", SIGNED, "2 1 0 1 0 -1 -1 -1"),
    ("int f(int a){return -a / -3;}", SIGNED, "-2 -2 -1 0 0 0 1 2"),
    ("int f(int a){return -a % -3;}", SIGNED, "2 1 0 1 0 -1 -1 -1"),
    ("int f(int a){return a / (3);}", SIGNED, "-2 -2 -1 0 0 0 1 2"),
    ("int f(int a){return a % -(3);}", SIGNED, "-2 -1 0 -1 0 1 1 1"),
    ("int f(int a){return a / -(-3);}", SIGNED, "-2 -2 -1 0 0 0 1 2"),
    ("int f(int a){return a % +(-(3));}", SIGNED, "-2 -1 0 -1 0 1 1 1"),
    ("int f(int a){return a / 1 + a % 1;}", SIGNED, "-8 -7 -3 -1 0 1 4 7"),
    ("int f(int a){return a / -1 - a % -1;}", SIGNED, "8 7 3 1 0 -1 -4 -7"),
    (
        "int f(int a){if(a==1) return 7/2; if(a==2) return -7/2; if(a==3) return 7/-2; \
        return -7/-2;}",
        &[1, 2, 3, 4],
        "3 -3 -3 3",
    ),
    (
        "int f(int a){if(a==1) return 7%2; if(a==2) return -7%2; if(a==3) return 7%-2; \
        return -7%-2;}",
        &[1, 2, 3, 4],
        "1 -1 1 -1",
    ),
    (
        "int f(int a){if(a==1) return (7)/(2); if(a==2) return (-7)/(2); \
        if(a==3) return (7)/(-2); return (-7)/(-2);}",
        &[1, 2, 3, 4],
        "3 -3 -3 3",
    ),
    (
        "int f(int a){if(a==1) return (7)%(2); if(a==2) return (-7)%(2); \
        if(a==3) return (7)%(-2); return (-7)%(-2);}",
        &[1, 2, 3, 4],
        "1 -1 1 -1",
    ),
    (
        "int f(int a){if(a==1) return -(7/2); if(a==2) return -(-7/2); if(a==3) return -(7%2); \
        return -(7%-2);}",
        &[1, 2, 3, 4],
        "-3 3 -1 -1",
    ),
    (
        "int f(int a){return a / 9223372036854775807 * 10 + a % 9223372036854775807;}",
        &[9223372036854775807, -9223372036854775807, -5],
        "10 -10 -5",
    ),
    // Quotients and remainders within other expressions.
    ("int f(int a){return a / 3 % 2;}", SIGNED, "0 0 -1 0 0 0 1 0"),
    ("int f(int a){return a % 5 / 2;}", SIGNED, "-1 -1 -1 0 0 0 2 1"),
    ("int f(int a){return a / 2 / 3;}", SIGNED, "-1 -1 0 0 0 0 0 1"),
    ("int f(int a){return a % 6 % 4;}", SIGNED, "-2 -1 -3 -1 0 1 0 1"),
    ("int f(int a){return -(a % -4);}", SIGNED, "0 3 3 1 0 -1 0 -3"),
    ("int f(int a){return -(a / -2);}", SIGNED, "-4 -3 -1 0 0 0 2 3"),
    ("int f(int a){return a / 2 * 2 + a % 2;}", SIGNED, "-8 -7 -3 -1 0 1 4 7"),
    ("int f(int a){return a - a / 3 * 3;}", SIGNED, "-2 -1 0 -1 0 1 1 1"),
    ("int f(int a){return (a + 1) / -2;}", SIGNED, "3 3 1 0 0 -1 -2 -4"),
    ("int f(int a){return (a - 1) % -3;}", SIGNED, "0 -2 -1 -2 -1 0 0 0"),
    ("int f(int a){return a * 5 / 2;}", SIGNED, "-20 -17 -7 -2 0 2 10 17"),
    ("int f(int a){return a * (5 / 2);}", SIGNED, "-16 -14 -6 -2 0 2 8 14"),
    ("int f(int a){return 5 * a % -3;}", SIGNED, "-1 -2 0 -2 0 2 2 2"),
    ("int f(int a){return 7 - a % 3 * 2;}", SIGNED, "11 9 7 9 7 5 5 5"),
    ("int f(int a){return -100 / 7 % -5 + a;}", SIGNED, "-12 -11 -7 -5 -4 -3 0 3"),
    ("int f(int a){return (a / 2 - a % 3) / -2 % 2;}", SIGNED, "1 1 0 0 0 0 0 -1"),
    ("int f(int a){return a / 2 ? a % 2 : -1;}", SIGNED, "0 -1 -1 -1 -1 -1 0 1"),
    ("int f(int a){return !(a % 2) + 2 * !(a / 2);}", SIGNED, "1 0 0 2 3 2 1 0"),
    ("int f(int a){return (a % 2 == 1) - (a % 2 == -1);}", SIGNED, "0 -1 -1 -1 0 1 0 1"),
    ("int f(int a){return (a / 4 < a % 4) + 2 * (a / -4 >= a % -4);}", SIGNED, "3 2 2 2 2 1 0 1"),
    ("int f(int a){return a % 3 && a / 3;}", SIGNED, "1 1 0 0 0 0 1 1"),
    ("int f(int a){return a / 5 || a % 5 - 4;}", SIGNED, "1 1 1 1 1 1 0 1"),
    // Conditions, of loops as well.
    ("int f(int a){if(a % 2) return 1; return 0;}", SIGNED, "0 1 1 1 0 1 0 1"),
    ("int f(int a){if(a / 4) return a % 4; else return a / -2;}", SIGNED, "0 -3 1 0 0 0 0 3"),
    ("int f(int a){int c=0; while(a / 2){a /= 2; c++;} return c;}", SIGNED, "3 2 1 0 0 0 2 2"),
    ("int f(int a){int c=0; while(a % 5){a--; c++;} return c;}", SIGNED, "2 3 2 4 0 1 4 2"),
    (
        "int f(int a){int c=0; do {c++; a/=-3;} while(a%3); return c*100+a;}",
        SIGNED,
        "200 200 200 100 100 100 200 200",
    ),
    // Parts of a `for`, and initialisers.
    (
        "int f(int a){int s=0; for(int i=a*10;i;i/=-3) s=s*2+i; return s;}",
        SIGNED,
        "-550 -480 -205 -35 0 35 275 480",
    ),
    (
        "int f(int a){int s=0; for(int i=a;i<20;i+=3+i%3) s+=i; return s;}",
        SIGNED,
        "22 30 60 48 63 49 42 34",
    ),
    (
        "int f(int a){int s=0; for(int i=100;i>a;i=i/2-2) s=s+i%7; return s;}",
        &[-1, 0, 1, 4, 7, 99, 100],
        "13 13 13 11 11 2 0",
    ),
    (
        "int f(int a){int s=0; for(int i=-5;i<a;i++){if(i%3==0) continue; if(i/4==1) break; \
        s=s*3+i%2;} return s;}",
        SIGNED,
        "0 0 -3 -9 -28 -28 -249 -249",
    ),
    ("int f(int a){int q=a/3, r=a%3; return q*10+r;}", SIGNED, "-22 -21 -10 -1 0 1 11 21"),
    (
        "int f(int a){int q=-a/-4; {int r=q%-2; q=q*10+r;} return q;}",
        SIGNED,
        "-20 -11 0 0 0 0 11 11",
    ),
    (
        "int f(int a){int s=0; for(int i=a/2,j=a%-2;i<4;i++) s=s*2+j+i; return s;}",
        SIGNED,
        "-773 -388 -36 -4 11 26 7 4",
    ),
    // Compound assignments.
    ("int f(int a){a /= 2; return a;}", SIGNED, "-4 -3 -1 0 0 0 2 3"),
    ("int f(int a){a %= -3; return a;}", SIGNED, "-2 -1 0 -1 0 1 1 1"),
    ("int f(int a){a /= -2; a %= 3; return a;}", SIGNED, "1 0 1 0 0 0 -2 0"),
    ("int f(int a){a /= -(2); a *= a; a %= +(5); return a;}", SIGNED, "1 4 1 0 0 0 4 4"),
    ("int f(int a){a -= a/2; a *= a%3; return a;}", SIGNED, "4 4 4 1 0 1 4 4"),
    ("int f(int a){int b=a; b /= (-3); b -= a; b %= (4); return b;}", SIGNED, "2 1 0 1 0 -1 -1 -1"),
    // Worked programs.
    ("int f(int a){int s=0; while(a){s+=a%10; a/=10;} return s;}", &[12345, -987, 0], "15 -24 0"),
    (
        "int f(int a){int n=0; while(a!=1 && n<50){if(a%2) a=3*a+1; else a/=2; n++;} return n;}",
        &[1, 6, 7, -5],
        "0 8 16 50",
    ),
    (
        "int f(int a){return a%4==0 && (a%100!=0 || a%400==0);}",
        &[1900, 2000, 2023, 2024],
        "0 1 0 1",
    ),
    ("int f(int a){return (a + 5) / 10 * 10;}", &[-14, -16, 14, 16], "0 -10 10 20"),
    // Two parameters.
    ("int f(int a,int b){return (a - b) / 2;}", PAIRS, "2 -4 4 -2 -2 2"),
    ("int f(int a,int b){return (a + b) % -3;}", PAIRS, "0 -2 2 0 2 -1"),
    ("int f(int a,int b){return a / 2 - b % 3;}", PAIRS, "1 -5 5 -1 -2 0"),
    ("int f(int a,int b){return a % 3 < b / 2 ? a / -3 : b % -4;}", PAIRS, "2 2 -2 -2 0 -2"),
    ("int f(int a,int b){return a * b / 5 * 5 + a * b % 5 - a;}", PAIRS, "7 -7 -21 21 0 7"),
    (
        "int f(int a,int b){int s=0; for(int i=a;i!=b;i+=i<b ? 1 : -1) s=s*2+i%4-i/3; return s;}",
        PAIRS,
        "16 -275 275 -16 19 -38",
    ),
];

#[rattlefmt::skip]
const PROGRAMS: [Row; 16] = [
    // Loops, branches and jumps.
    (
        "int f(int n){int s=0; for(int i=0;i<n;i++){for(int j=0;;j++){if(j>i) break; \
        if(j==2) continue; s+=i*10+j;}} return s;}",
        SMALL,
        "0 0 21 0 966",
    ),
    (
        "int f(int n){int s=0; int i=0; do {i++; if(i==2) continue; s+=i;} while(i<n); return s;}",
        SMALL,
        "1 1 1 1 26",
    ),
    (
        "int f(int a){int s=0; {int a=5; s+=a; {int a=7; s*=a;} s-=a;} return s+a;}",
        SMALL,
        "30 31 32 29 37",
    ),
    ("int f(int a){if(a>0){return 1; a=9;} return a; a=3;}", SMALL, "0 1 1 -1 1"),
    (
        "int f(int n){int c=0; while(n>0 && c<10){if(n>3) n-=3; else n--; c++;} return c;}",
        SMALL,
        "0 1 2 0 3",
    ),
    (
        "int f(int n){int a=0,b=1; for(;n>0;--n){int t=a+b; a=b; b=t;} return a;}",
        SMALL,
        "0 1 1 0 13",
    ),
    ("int f(int n){int i=0; while(1){if(i>=n) break; else i+=2;} return i;}", SMALL, "0 2 2 0 8"),
    (
        "int f(int n){int s=0; do {int i=0; while(i<5){i++; if(i==3) continue; if(i>n) break; \
        s+=i;} n-=3;} while(n>0); return s;}",
        SMALL,
        "0 1 3 0 20",
    ),
    ("int f(int a){return - -a + +a - !a + !!a;}", SMALL, "-1 3 5 -1 15"),
    (
        "long f(long a){long long int b = 0x1F; long int c = 010L; return a*b+c;}",
        SMALL,
        "8 39 70 -23 225",
    ),
    (
        "int f(int n){for(int i=0;i<4;i++) for(int j=0;j<9;j++) if(i*j>n) return i*100+j; \
        return -1;}",
        SMALL,
        "101 102 103 0 108",
    ),
    (
        "int f(int n){int i=0,s=0; for(;;){if(i>n) break; s+=i; i++;} return s;}",
        SMALL,
        "0 1 3 0 28",
    ),
    (
        "int f(int a,int b){if(a<0) a=-a; if(b<0) b=-b; while(a!=b && a && b){if(a>b) a-=b; \
        else b-=a;} return a+b;}",
        SMALL_PAIRS,
        "0 1 2 1 7 1 2 2 2 2 2 2 4 2 2 1 2 2 2 2 7 2 2 2 14",
    ),
    (
        "int f(int a,int b){return a>b ? a-b : a==b ? 100 : !a && !b ? 200 : b-a;}",
        SMALL_PAIRS,
        "100 1 2 1 7 1 100 1 2 6 2 1 100 3 5 1 2 3 100 8 7 6 5 8 100",
    ),
    (
        "int f(int x,int n){int r=1; for(int i=0;i<n;i++) r*=x; return r;}",
        SMALL_PAIRS,
        "1 1 1 1 1 0 1 2 -1 7 0 1 4 1 49 1 1 1 1 1 0 1 128 -1 823543",
    ),
    (
        "int f(int a,int b){return (a<b)+2*(a>=b)-3*(a==b)*(a!=b+1)+4*(a>b+1)+8*(a<=b-1);}",
        SMALL_PAIRS,
        "-1 2 6 9 6 9 -1 2 9 6 9 9 -1 9 6 2 6 6 -1 6 9 9 9 9 -1",
    ),
];

/// Adds what a run returns, or why it returns nothing.
fn push_result(out: &mut String, ran: &Option<Outcome>) -> Result<(), AllocError> {
    match ran {
        Some(Outcome::Returned(trace)) => write!(out, " {}", trace.result),
        Some(Outcome::Wide) => out.push_str(" wide"),
        Some(Outcome::CutOff) => out.push_str(" cut off"),
        None => out.push_str(" another on the graph"),
    }
}

/// What the runs of a row return.
fn results(alloc: Global, row: &Row) -> Result<String, Fail> {
    let func = function(alloc, row.0)?;
    let mut out = String::new(alloc);
    for inputs in row.1.chunks(func.params().max(1) as usize) {
        push_result(&mut out, &both_ways(alloc, &func, inputs)?)?;
    }
    Ok(out)
}

fn are_right(alloc: Global, row: &Row) -> Result<bool, Fail> {
    Ok(results(alloc, row)?.as_str().trim_start() == row.2)
}

#[test]
fn functions_return_what_c_returns(rt: HostRuntime) -> Result<(), Fail> {
    for row in DIVISIONS.as_slice() {
        assert!(rt; are_right(rt.alloc(), row)?, "{}", row.0);
    }
    for row in PROGRAMS.as_slice() {
        assert!(rt; are_right(rt.alloc(), row)?, "{}", row.0);
    }
    Ok(())
}
