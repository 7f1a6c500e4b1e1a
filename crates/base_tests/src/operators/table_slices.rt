//! Values, the ends of a slice, and the slice. Written by scripts/operator_table.py.
use super::*;

pub(super) const TABLE_SLICES: [SliceCase; 26] = slice_cases! {
    1 0x0 [0:0] => 1 0x0;
    7 0x69 [0:0] => 1 0x1;
    7 0x69 [3:2] => 2 0x2;
    7 0x69 [6:0] => 7 0x69;
    7 0x69 [6:3] => 4 0xd;
    7 0x69 [6:6] => 1 0x1;
    8 0x8c [0:0] => 1 0x0;
    8 0x8c [4:2] => 3 0x3;
    8 0x8c [7:0] => 8 0x8c;
    8 0x8c [7:4] => 4 0x8;
    8 0x8c [7:7] => 1 0x1;
    64 0x1d4b986fe34b418c [0:0] => 1 0x0;
    64 0x1d4b986fe34b418c [32:21] => 12 0xf1a;
    64 0x1d4b986fe34b418c [63:0] => 64 0x1d4b986fe34b418c;
    64 0x1d4b986fe34b418c [63:32] => 32 0x1d4b986f;
    64 0x1d4b986fe34b418c [63:63] => 1 0x0;
    127 0x2a4ebc05e202ca02d90f25a44a2704c1 [0:0] => 1 0x1;
    127 0x2a4ebc05e202ca02d90f25a44a2704c1 [63:42] => 22 0x3643c9;
    127 0x2a4ebc05e202ca02d90f25a44a2704c1 [126:0] => 127 0x2a4ebc05e202ca02d90f25a44a2704c1;
    127 0x2a4ebc05e202ca02d90f25a44a2704c1 [126:63] => 64 0x549d780bc4059405;
    127 0x2a4ebc05e202ca02d90f25a44a2704c1 [126:126] => 1 0x0;
    128 0xc388a962c3a09bc9939504785991d86b [0:0] => 1 0x1;
    128 0xc388a962c3a09bc9939504785991d86b [64:42] => 23 0x64e541;
    128 0xc388a962c3a09bc9939504785991d86b [127:0] => 128 0xc388a962c3a09bc9939504785991d86b;
    128 0xc388a962c3a09bc9939504785991d86b [127:64] => 64 0xc388a962c3a09bc9;
    128 0xc388a962c3a09bc9939504785991d86b [127:127] => 1 0x1;
};
