//! Expressions behind the declarations of these rows.

use crate::typed::{Question, said_in};
use c_lexer::LexFault;
use std::alloc::Global;

/// What is declared at file scope.
static DECLARATIONS: [&str; 10] = [
    "char c; signed char sc; unsigned char uc; short s; unsigned short us; int i; unsigned u; long l; unsigned long ul;",
    "long long ll; unsigned long long ull; float f; double d; long double ld; _Bool b; __int128 q; unsigned __int128 uq;",
    "_Float32 f32; _Float32x f32x; _Float64 f64; _Float64x f64x; _Float128 f128;",
    "int *p; char *r; void *v; int a[3]; char *as[2]; int m[2][3]; int (*pa)[3];",
    "struct st { int x; long y; char z[4]; struct st *n; struct { short in; union { double ud; unsigned char uu; }; };",
    "struct { int k; } nm; int (*op)(int); unsigned bf : 3; } t, *pt, ts[2];",
    "union un { int x; float w; } w; enum e { A, B } e;",
    "int fn(void); long *gn(int); void vn(void); struct st sn(void); double (*fp)(int);",
    "int (*fa[2])(void); int (*(*ffp)(void))(int); typedef int T; typedef char *S;",
    "typedef int F(void); typedef int R[4]; F tf; R ra; __builtin_va_list va;",
];

/// The answer to a question about an expression that stands in a function behind the declarations.
pub fn said_of(alloc: Global, expression: &str, question: Question) -> Result<String, LexFault> {
    let mut text = String::new(alloc);
    for line in &DECLARATIONS {
        text.push_str(line)?;
        text.push_str("\n")?;
    }
    text.push_str("void test(void) { ")?;
    text.push_str(expression)?;
    text.push_str("; }")?;
    said_in(alloc, 0, text.as_str(), question)
}
