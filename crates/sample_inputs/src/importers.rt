// Modules that import functions and are not in `examples/`.

/// Imports the functions `h.f` of type `[i32 i64] -> [i32]` and `h.v` of type `[] -> []`, two functions `h.p` of types
/// `[i64 i32] -> []` and `[i32 i32] -> []`, two functions `h.r` with the results i32 and i64, and the globals `h.g`
/// (mutable i32), `h.k` (i64) and `a/b.c~d` (f32). Exports a table `tab`, a memory `mem`, the globals `x` (mutable f64)
/// and `y` (i32), function 6, of the type of `h.f`, as `run`, function 7, of type `[] -> []`, as `go`, and the first
/// import as `own`.
pub const EVERY_KIND: &str =
    // (module (import "h" "f" (func (param i32 i64) (result i32))) (import "h" "v" (func))
    //   (import "h" "g" (global (mut i32))) (import "h" "k" (global i64)) (import "a/b" "c~d" (global f32))
    //   (import "h" "p" (func (param i64 i32))) (import "h" "p" (func (param i32 i32)))
    //   (import "h" "r" (func (result i32))) (import "h" "r" (func (result i64))) (table (export "tab") 2 funcref)
    //   (memory (export "mem") 1) (global (export "x") (mut f64) (f64.const 0))
    //   (global (export "y") i32 (i32.const 0)) (func (export "run") (param i32 i64) (result i32) i32.const 0)
    //   (func (export "go")) (export "own" (func 0)))
    "0061736d01000000011c0660027f7e017f60000060027e7f0060027f7f006000017f6000017e\
     023e0901680166000001680176000101680167037f010168016b037e0003612f6203637e64037d0001680170000201680170\
     0003016801720004016801720005030302000104040170000205030100010612027c014400000000000000000b7f0041000b\
     072607037461620100036d656d020001780303017903040372756e000602676f0007036f776e0000\
     0a0902040041000b02000b";

/// `examples/two_answers.wat`, except that its export `g` is the import.
pub const EXPORTED_IMPORT: &str =
    // (module (import "h" "f" (func (result i32))) (func (result i32) call 0 call 0 i32.add)
    //   (export "g" (func 0)))
    "0061736d010000000105016000017f02070101680166000003020100070501016700000a09010700100010006a0b";
