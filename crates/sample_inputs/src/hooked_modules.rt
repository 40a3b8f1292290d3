// Instrumented modules, worked out by hand, with a digest of bytes 7.

/// A function that calls an import twice and adds what it returns.
pub const TWO_ANSWERS: &str =
    // (module (type (func (result i32))) (type (func (param i32 i64))) (type (func (param i32))) (type (func))
    //   (type (func (param i32 i32 i32))) (type (func (param i32 i32 i32 i64)))
    //   (import "h" "f" (func (type 0))) (import "r3" "arg" (func (type 1))) (import "r3" "enter" (func (type 2)))
    //   (import "r3" "leave" (func (type 2))) (import "r3" "pre" (func (type 2))) (import "r3" "post" (func (type 2)))
    //   (import "r3" "ipre" (func (type 2))) (import "r3" "ipost" (func (type 3))) (import "r3" "load" (func (type 4)))
    //   (import "r3" "store" (func (type 5))) (import "r3" "size" (func (type 3))) (import "r3" "grow" (func (type 2)))
    //   (import "r3" "gget" (func (type 1))) (import "r3" "gset" (func (type 1))) (import "r3" "copy" (func (type 4)))
    //   (import "r3" "fill" (func (type 4)))
    //   (func (type 0) (local i32 i32 i64 f32 f64)
    //     i32.const 1 call 2 block (result i32)
    //     i32.const 0 call 4 call 0 local.set 1
    //     i32.const 127 local.get 1 i64.extend_i32_u call 1 i32.const 0 call 5 local.get 1
    //     i32.const 0 call 4 call 0 local.set 1
    //     i32.const 127 local.get 1 i64.extend_i32_u call 1 i32.const 0 call 5 local.get 1
    //     i32.add end i32.const 1 call 3)
    //   (export "g" (func 16))), with a section `r3.hooked`
    "0061736d01000000011e066000017f60027f7e0060017f0060000060037f7f7f0060047f7f7f7e00029f011001680166\
     000002723303617267000102723305656e7465720002027233056c65617665000202723303707265000202723304706f\
     73740002027233046970726500020272330569706f73740003027233046c6f616400040272330573746f726500050272\
     330473697a6500030272330467726f770002027233046767657400010272330467736574000102723304636f70790004\
     0272330466696c6c000403020100070501016700100a44014204027f017e017d017c41011002027f4100100410002101\
     41ff002001ad1001410010052001410010041000210141ff002001ad10014100100520016a0b410110030b002c097233\
     2e686f6f6b656407070707070707070707070707070707070707070707070707070707070707070101";
