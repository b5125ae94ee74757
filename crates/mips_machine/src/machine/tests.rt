//! Instructions as an emulator runs them, hazards, and the order of traps.
//!
//! The first six tables are words that GNU as spelled, with what QEMU made of them.

use super::*;
use byteorder::BigEndian;
use ec_memory::blocks::Blocks;
use ec_target::outcome::Trap;
use std::test::Fail;

/// Where block 0 begins.
const BLOCK: u32 = 0x1000_0000;

/// Word, $9, $10, and what $8 becomes.
const OPERATIONS: [(u32, u32, u32, u32); 96] = [
    (0x012A_4021, 0x1D6E_6958, 0xDEC6_DD5A, 0xFC35_46B2),
    (0x012A_4023, 0xA4B1_B297, 0xFD59_5626, 0xA758_5C71),
    (0x012A_4024, 0x6FD0_6132, 0x0000_0020, 0x0000_0020),
    (0x012A_4025, 0x8000_0001, 0x82E6_6B1D, 0x82E6_6B1D),
    (0x012A_4026, 0x0000_007F, 0xFA7F_335F, 0xFA7F_3320),
    (0x012A_4027, 0x37DE_F267, 0x0000_0001, 0xC821_0D98),
    (0x012A_402A, 0x0000_0000, 0x0000_0000, 0x0000_0000),
    (0x012A_402B, 0x0000_0080, 0x0000_0000, 0x0000_0000),
    (0x0149_4004, 0x8F1C_873F, 0x0000_001F, 0x8000_0000),
    (0x0149_4006, 0x8000_0000, 0x405A_6B61, 0x4000_0000),
    (0x0149_4007, 0x2EC3_CC33, 0x0000_0001, 0x1761_E619),
    (0x012A_4020, 0x0000_7FFF, 0x8000_0000, 0x8000_7FFF),
    (0x012A_4022, 0xFFFF_FFFE, 0x0000_0005, 0xFFFF_FFF9),
    (0x2528_0000, 0x0000_0005, 0x0000_0000, 0x0000_0005),
    (0x2928_0000, 0x0000_0080, 0x0000_0000, 0x0000_0000),
    (0x2D28_0000, 0x266A_1D83, 0x0000_0000, 0x0000_0000),
    (0x2128_0000, 0xF637_826B, 0x0000_0000, 0xF637_826B),
    (0x3128_0001, 0x7149_1B28, 0x0000_0000, 0x0000_0000),
    (0x3528_0001, 0x1E83_7F23, 0x0000_0000, 0x1E83_7F23),
    (0x3928_0001, 0x0000_0003, 0x0000_0000, 0x0000_0002),
    (0x0009_4400, 0xB6CB_E1DE, 0x0000_0000, 0xE1DE_0000),
    (0x0009_43C2, 0xDF03_202A, 0x0000_0000, 0x0001_BE06),
    (0x0009_4403, 0xB953_CDCE, 0x0000_0000, 0xFFFF_B953),
    (0x3C08_FFFF, 0x0000_0000, 0x0000_0000, 0xFFFF_0000),
    (0x012A_4021, 0x2F44_2E47, 0x085A_75C6, 0x379E_A40D),
    (0x012A_4023, 0xE29F_E160, 0xF705_C3E1, 0xEB9A_1D7F),
    (0x012A_4024, 0x0FF8_116D, 0x0000_007F, 0x0000_006D),
    (0x012A_4025, 0x0000_0100, 0x0000_0001, 0x0000_0101),
    (0x012A_4026, 0x0000_007F, 0x01BF_57B8, 0x01BF_57C7),
    (0x012A_4027, 0x0000_0004, 0x0001_0000, 0xFFFE_FFFB),
    (0x012A_402A, 0x240F_60C5, 0x0000_0002, 0x0000_0000),
    (0x012A_402B, 0x0001_0000, 0xE3BD_CC05, 0x0000_0001),
    (0x0149_4004, 0xE74F_58B9, 0xCA0D_6262, 0x9D3D_62E4),
    (0x0149_4006, 0x0000_8000, 0x7998_1798, 0x0000_0000),
    (0x0149_4007, 0x0000_00FF, 0x0000_0002, 0x0000_003F),
    (0x012A_4020, 0x0000_0020, 0x2232_9623, 0x2232_9643),
    (0x012A_4022, 0x056D_543C, 0x0000_00FF, 0x056D_533D),
    (0x2528_8000, 0x0000_00FF, 0x0000_0000, 0xFFFF_80FF),
    (0x2928_7FFF, 0x0000_001F, 0x0000_0000, 0x0000_0001),
    (0x2D28_0001, 0x3241_A461, 0x0000_0000, 0x0000_0000),
    (0x2128_0001, 0xD684_1AC9, 0x0000_0000, 0xD684_1ACA),
    (0x3128_0000, 0x0000_FFFF, 0x0000_0000, 0x0000_0000),
    (0x3528_0001, 0x7FFD_30E4, 0x0000_0000, 0x7FFD_30E5),
    (0x3928_A33E, 0x0001_0000, 0x0000_0000, 0x0001_A33E),
    (0x0009_4500, 0x4FC2_89F7, 0x0000_0000, 0x9F70_0000),
    (0x0009_4142, 0x92A8_DB77, 0x0000_0000, 0x0495_46DB),
    (0x0009_4103, 0x0000_7FFF, 0x0000_0000, 0x0000_07FF),
    (0x3C08_0000, 0x0000_0000, 0x0000_0000, 0x0000_0000),
    (0x012A_4021, 0x913D_1C68, 0x0000_0005, 0x913D_1C6D),
    (0x012A_4023, 0x7A71_282C, 0x0000_0020, 0x7A71_280C),
    (0x012A_4024, 0x9C04_18F6, 0xFFFF_FFFE, 0x9C04_18F6),
    (0x012A_4025, 0x0000_001F, 0xFE5C_53D9, 0xFE5C_53DF),
    (0x012A_4026, 0x0000_0080, 0x0000_0005, 0x0000_0085),
    (0x012A_4027, 0x0000_0005, 0xBDD5_2E83, 0x422A_D178),
    (0x012A_402A, 0x4EE3_6E18, 0x0000_7FFF, 0x0000_0000),
    (0x012A_402B, 0x0001_0000, 0x2B76_9406, 0x0000_0001),
    (0x0149_4004, 0x81DD_51F7, 0x978F_EB91, 0xA3EE_0000),
    (0x0149_4006, 0x34EC_3C4A, 0x0000_0004, 0x034E_C3C4),
    (0x0149_4007, 0xD03C_E695, 0x1E7A_DBDB, 0xFFFF_FFFA),
    (0x012A_4020, 0xFFFF_FFFE, 0x2DCD_1C3F, 0x2DCD_1C3D),
    (0x012A_4022, 0x7087_2DED, 0x7FFF_FFFF, 0xF087_2DEE),
    (0x2528_0000, 0x0000_001F, 0x0000_0000, 0x0000_001F),
    (0x2928_0001, 0x18E8_881E, 0x0000_0000, 0x0000_0000),
    (0x2D28_7FFF, 0x0000_0005, 0x0000_0000, 0x0000_0001),
    (0x2128_8000, 0x97F4_206B, 0x0000_0000, 0x97F3_A06B),
    (0x3128_8000, 0x8000_0000, 0x0000_0000, 0x0000_0000),
    (0x3528_58D8, 0x0000_00FF, 0x0000_0000, 0x0000_58FF),
    (0x3928_0000, 0x0000_0000, 0x0000_0000, 0x0000_0000),
    (0x0009_4380, 0x8CD2_62EE, 0x0000_0000, 0x98BB_8000),
    (0x0009_4702, 0x0000_0080, 0x0000_0000, 0x0000_0000),
    (0x0009_4603, 0x0000_0003, 0x0000_0000, 0x0000_0000),
    (0x3C08_8000, 0x0000_0000, 0x0000_0000, 0x8000_0000),
    (0x012A_4021, 0x5822_F194, 0x8000_0001, 0xD822_F195),
    (0x012A_4023, 0xA922_1F7B, 0x3588_19D0, 0x739A_05AB),
    (0x012A_4024, 0xDA80_A3BB, 0xE837_1486, 0xC800_0082),
    (0x012A_4025, 0x0000_0100, 0x6273_BA83, 0x6273_BB83),
    (0x012A_4026, 0x2CF5_E8AF, 0xFFFF_FFFE, 0xD30A_1751),
    (0x012A_4027, 0xF5BC_54CE, 0x8000_0001, 0x0A43_AB30),
    (0x012A_402A, 0x38E1_A266, 0x8000_0001, 0x0000_0000),
    (0x012A_402B, 0x0000_001F, 0x4B2E_8AB3, 0x0000_0001),
    (0x0149_4004, 0x0000_0000, 0x17DF_154C, 0x0000_0000),
    (0x0149_4006, 0xF3B5_B682, 0x7FFF_FFFF, 0x0000_0001),
    (0x0149_4007, 0xD166_A38A, 0xC0E3_4232, 0xFFFF_F459),
    (0x012A_4020, 0xF1C0_D2B4, 0xF92A_A6B2, 0xEAEB_7966),
    (0x012A_4022, 0x0000_001F, 0x0000_0005, 0x0000_001A),
    (0x2528_0000, 0x2917_E4EE, 0x0000_0000, 0x2917_E4EE),
    (0x2928_7FFF, 0x0001_0000, 0x0000_0000, 0x0000_0000),
    (0x2D28_8000, 0x0000_0080, 0x0000_0000, 0x0000_0001),
    (0x2128_0001, 0x0000_00FF, 0x0000_0000, 0x0000_0100),
    (0x3128_0000, 0x0000_FFFF, 0x0000_0000, 0x0000_0000),
    (0x3528_4463, 0x16FA_7AC9, 0x0000_0000, 0x16FA_7EEB),
    (0x3928_FFFF, 0x0000_0004, 0x0000_0000, 0x0000_FFFB),
    (0x0009_4580, 0x47B1_231F, 0x0000_0000, 0xC7C0_0000),
    (0x0009_4782, 0x6235_C503, 0x0000_0000, 0x0000_0001),
    (0x0009_4303, 0x0000_8000, 0x0000_0000, 0x0000_0008),
    (0x3C08_41E6, 0x0000_0000, 0x0000_0000, 0x41E6_0000),
];

/// Word, $9, $10, and whether the branch to 12 bytes on is taken.
const BRANCHES: [(u32, u32, u32, bool); 24] = [
    (0x112A_0002, 0x5365_5C69, 0x5365_5C69, true),
    (0x152A_0002, 0xFFFF_FFFF, 0xFFFF_FFFF, false),
    (0x1920_0002, 0x0000_7FFF, 0x0000_0000, false),
    (0x1D20_0002, 0xD4FE_D542, 0x0000_0000, false),
    (0x0520_0002, 0xE09A_B5F2, 0x0000_0000, true),
    (0x0521_0002, 0x0000_0005, 0x0000_0000, true),
    (0x112A_0002, 0xFFFF_FFFF, 0x0000_0005, false),
    (0x152A_0002, 0x39CD_8586, 0x39CD_8586, false),
    (0x1920_0002, 0x409D_41EA, 0x0000_0000, false),
    (0x1D20_0002, 0xF3BE_7284, 0x0000_0000, false),
    (0x0520_0002, 0x0000_0000, 0x0000_0000, false),
    (0x0521_0002, 0xFFFF_FFFE, 0x0000_0000, false),
    (0x112A_0002, 0x0000_8000, 0x0000_8000, true),
    (0x152A_0002, 0x0000_0080, 0x7FFF_FFFF, true),
    (0x1920_0002, 0xE229_3C8E, 0x0000_0000, true),
    (0x1D20_0002, 0xBDAE_FAFE, 0x0000_0000, false),
    (0x0520_0002, 0x816A_23D6, 0x0000_0000, true),
    (0x0521_0002, 0x0000_0004, 0x0000_0000, true),
    (0x112A_0002, 0x34C5_7125, 0xB8F3_B05D, false),
    (0x152A_0002, 0x0ACA_DA4A, 0x0ACA_DA4A, false),
    (0x1920_0002, 0x1266_89D5, 0x0000_0000, false),
    (0x1D20_0002, 0xD03C_39A3, 0x0000_0000, false),
    (0x0520_0002, 0xDB65_AD50, 0x0000_0000, true),
    (0x0521_0002, 0x0000_0100, 0x0000_0000, true),
];

/// Word, the word at $10, and what $8 becomes.
const LOADS: [(u32, u32, u32); 20] = [
    (0x8148_0001, 0x1D24_80CA, 0x0000_0024),
    (0x8548_0002, 0x0000_7FFF, 0x0000_7FFF),
    (0x8D48_0000, 0xEBB7_69F9, 0xEBB7_69F9),
    (0x9148_0003, 0x5EDC_0277, 0x0000_0077),
    (0x9548_0002, 0x0000_00FF, 0x0000_00FF),
    (0x8148_0003, 0x0000_0003, 0x0000_0003),
    (0x8548_0000, 0x8000_0001, 0xFFFF_8000),
    (0x8D48_0000, 0xFFFF_FFFE, 0xFFFF_FFFE),
    (0x9148_0002, 0x9BCA_1C4E, 0x0000_001C),
    (0x9548_0000, 0x529A_1A4A, 0x0000_529A),
    (0x8148_0001, 0x0000_0004, 0x0000_0000),
    (0x8548_0002, 0x0000_001F, 0x0000_001F),
    (0x8D48_0000, 0x27DF_B626, 0x27DF_B626),
    (0x9148_0000, 0x6CDA_28E8, 0x0000_006C),
    (0x9548_0002, 0x0000_00FF, 0x0000_00FF),
    (0x8148_0003, 0x0000_8000, 0x0000_0000),
    (0x8548_0002, 0x2489_1B72, 0x0000_1B72),
    (0x8D48_0000, 0x0000_00FF, 0x0000_00FF),
    (0x9148_0001, 0x0000_00FF, 0x0000_0000),
    (0x9548_0000, 0x0000_0004, 0x0000_0000),
];

/// Word, $9, the word at $10, and what that word becomes.
const STORES: [(u32, u32, u32, u32); 12] = [
    (0xA149_0001, 0x0000_FFFF, 0x5ECB_3CA3, 0x5EFF_3CA3),
    (0xA549_0000, 0x0000_007F, 0xDF21_CA9B, 0x007F_CA9B),
    (0xAD49_0000, 0xFFFF_FFFE, 0x229B_E150, 0xFFFF_FFFE),
    (0xA149_0001, 0x0000_0100, 0x8000_0000, 0x8000_0000),
    (0xA549_0000, 0x0000_8000, 0x0000_FFFF, 0x8000_FFFF),
    (0xAD49_0000, 0xFFFF_FFFE, 0x0000_0002, 0xFFFF_FFFE),
    (0xA149_0003, 0x65E5_30A9, 0x0000_FFFF, 0x0000_FFA9),
    (0xA549_0002, 0x0000_007F, 0x6310_1D93, 0x6310_007F),
    (0xAD49_0000, 0x4A24_5F3C, 0x0000_FFFF, 0x4A24_5F3C),
    (0xA149_0003, 0x0000_0020, 0x74EE_4AB2, 0x74EE_4A20),
    (0xA549_0000, 0x0DDF_7521, 0x0001_0000, 0x7521_0000),
    (0xAD49_0000, 0x0000_0021, 0x0000_0020, 0x0000_0021),
];

/// Word, $9, $10, and what LO becomes.
const LOWER: [(u32, u32, u32, u32); 16] = [
    (0x012A_0018, 0x8000_0001, 0x0000_00FF, 0x8000_00FF),
    (0x012A_0019, 0x0000_7FFF, 0x0000_00FF, 0x007F_7F01),
    (0x012A_001A, 0x11B6_4A61, 0x7AC5_D58C, 0x0000_0000),
    (0x012A_001B, 0xBC41_95C3, 0x81FB_A43E, 0x0000_0001),
    (0x012A_0018, 0x78BF_A79C, 0xB318_6BD8, 0xC763_9FA0),
    (0x012A_0019, 0x65CD_DE4F, 0x7FFF_FFFF, 0x1A32_21B1),
    (0x012A_001A, 0x5F85_A9FD, 0x0000_00FF, 0x005F_E58F),
    (0x012A_001B, 0x4DB8_A26B, 0x711D_D9D4, 0x0000_0000),
    (0x012A_0018, 0x0000_8000, 0x0000_0003, 0x0001_8000),
    (0x012A_0019, 0x8F1B_1E21, 0x574D_ECE6, 0xD910_7DA6),
    (0x012A_001A, 0x0000_FFFF, 0xD2E0_F22E, 0x0000_0000),
    (0x012A_001B, 0x8000_0001, 0x0D37_8636, 0x0000_0009),
    (0x012A_0018, 0xC769_BDD2, 0x0000_0001, 0xC769_BDD2),
    (0x012A_0019, 0x0000_0001, 0x0000_0020, 0x0000_0020),
    (0x012A_001A, 0x5D8C_6946, 0x0000_007F, 0x00BC_91F6),
    (0x012A_001B, 0xFAC7_B060, 0x6E56_8D5B, 0x0000_0002),
];

/// Word, $9, $10, and what HI becomes.
const UPPER: [(u32, u32, u32, u32); 16] = [
    (0x012A_0018, 0x2BEA_3FC4, 0x0000_FFFF, 0x0000_2BEA),
    (0x012A_0019, 0xEA97_B607, 0x0000_0004, 0x0000_0003),
    (0x012A_001A, 0xFC31_5153, 0x0000_001F, 0xFFFF_FFF6),
    (0x012A_001B, 0x5AF5_1434, 0xC821_D433, 0x5AF5_1434),
    (0x012A_0018, 0x0001_0000, 0x9026_0A5A, 0xFFFF_9026),
    (0x012A_0019, 0xD4A9_EFEB, 0x2A57_86C0, 0x232C_970D),
    (0x012A_001A, 0x7012_192E, 0xFFFF_FFFE, 0x0000_0000),
    (0x012A_001B, 0x5B69_6159, 0x0000_0004, 0x0000_0001),
    (0x012A_0018, 0x50FC_29DA, 0x7E88_3FAB, 0x2807_36B3),
    (0x012A_0019, 0x51DE_EC8D, 0xCC8F_8C5F, 0x416B_8CEA),
    (0x012A_001A, 0x37D7_ADFA, 0x7FFF_FFFF, 0x37D7_ADFA),
    (0x012A_001B, 0xE7C1_CD53, 0x0FC0_F277, 0x0B34_8AD1),
    (0x012A_0018, 0x2114_F60D, 0x85ED_E3A4, 0xF039_AB9A),
    (0x012A_0019, 0x1FE2_306B, 0x0000_0004, 0x0000_0000),
    (0x012A_001A, 0xFFFF_FFFE, 0x0000_0002, 0x0000_0000),
    (0x012A_001B, 0x7FFF_FFFF, 0x18CC_6594, 0x0402_041B),
];

/// What a word comes to at rest, with zero in each register: its last three bytes, from which first byte to which, and the trap, if
/// any. Where a word isn't here, it is in no row.
const FIRST_BYTES: [(u32, u32, u32, Option<Cause>); 26] = [
    (0x0000_0000, 0x00, 0x00, None),
    (0x0000_0000, 0x04, 0x3C, None),
    (0x0000_0000, 0x80, 0x87, Some(Cause::Outside)),
    (0x0000_0000, 0x8C, 0x97, Some(Cause::Outside)),
    (0x0000_0000, 0xA0, 0xA7, Some(Cause::Outside)),
    (0x0000_0000, 0xAC, 0xAF, Some(Cause::Outside)),
    (0x00FF_FFFF, 0x08, 0x17, None),
    (0x00FF_FFFF, 0x20, 0x3B, None),
    (0x00FF_FFFF, 0x80, 0x83, Some(Cause::Outside)),
    (0x00FF_FFFF, 0x84, 0x87, Some(Cause::Unaligned)),
    (0x00FF_FFFF, 0x8C, 0x8F, Some(Cause::Unaligned)),
    (0x00FF_FFFF, 0x90, 0x93, Some(Cause::Outside)),
    (0x00FF_FFFF, 0x94, 0x97, Some(Cause::Unaligned)),
    (0x00FF_FFFF, 0xA0, 0xA3, Some(Cause::Outside)),
    (0x00FF_FFFF, 0xA4, 0xA7, Some(Cause::Unaligned)),
    (0x00FF_FFFF, 0xAC, 0xAF, Some(Cause::Unaligned)),
    (0x005A_5A5A, 0x08, 0x17, None),
    (0x005A_5A5A, 0x20, 0x3B, None),
    (0x005A_5A5A, 0x80, 0x83, Some(Cause::Outside)),
    (0x005A_5A5A, 0x84, 0x87, Some(Cause::Outside)),
    (0x005A_5A5A, 0x8C, 0x8F, Some(Cause::Unaligned)),
    (0x005A_5A5A, 0x90, 0x93, Some(Cause::Outside)),
    (0x005A_5A5A, 0x94, 0x97, Some(Cause::Outside)),
    (0x005A_5A5A, 0xA0, 0xA3, Some(Cause::Outside)),
    (0x005A_5A5A, 0xA4, 0xA7, Some(Cause::Outside)),
    (0x005A_5A5A, 0xAC, 0xAF, Some(Cause::Unaligned)),
];

/// Four words with $9 = 2^31 - 1, $10 = 1, $12 = -2^31, $13 = -1 and $29 = 0x10000000, how many are done, and the trap behind them, if
/// any.
const PROGRAMS: [((u32, u32, u32, u32), u32, Option<Cause>); 28] = [
    // lw $8, 4($29); addu $9, $8, $8
    (
        (0x8FA8_0004, 0x0108_4821, 0x0000_0000, 0x0000_0000),
        1,
        Some(Cause::LoadDelay),
    ),
    // lw $8, 4($29); ori $8, $0, 1
    (
        (0x8FA8_0004, 0x3408_0001, 0x0000_0000, 0x0000_0000),
        1,
        Some(Cause::LoadDelay),
    ),
    // lw $8, 4($29); nop; addu $9, $8, $8
    (
        (0x8FA8_0004, 0x0000_0000, 0x0108_4821, 0x0000_0000),
        4,
        None,
    ),
    // lw $0, 4($29); addu $9, $0, $0
    (
        (0x8FA0_0004, 0x0000_4821, 0x0000_0000, 0x0000_0000),
        4,
        None,
    ),
    // lw $31, 4($29); jal
    (
        (0x8FBF_0004, 0x0C10_0004, 0x0000_0000, 0x0000_0000),
        1,
        Some(Cause::LoadDelay),
    ),
    // beq $0, $0, .+12; j 0
    (
        (0x1000_0002, 0x0800_0000, 0x0000_0000, 0x0000_0000),
        1,
        Some(Cause::Slot),
    ),
    // bgtz $0, .+12, which isn't taken; syscall
    (
        (0x1C00_0002, 0x0000_000C, 0x0000_0000, 0x0000_0000),
        1,
        Some(Cause::Slot),
    ),
    // mflo $11; mult $9, $10
    (
        (0x0000_5812, 0x012A_0018, 0x0000_0000, 0x0000_0000),
        1,
        Some(Cause::HiLo),
    ),
    // mfhi $11; nop; div $9, $10
    (
        (0x0000_5810, 0x0000_0000, 0x012A_001A, 0x0000_0000),
        2,
        Some(Cause::HiLo),
    ),
    // mflo $11; nop; mtlo $9
    (
        (0x0000_5812, 0x0000_0000, 0x0120_0013, 0x0000_0000),
        2,
        Some(Cause::HiLo),
    ),
    // mflo $11; nop; nop; mthi $9
    (
        (0x0000_5812, 0x0000_0000, 0x0000_0000, 0x0120_0011),
        4,
        None,
    ),
    // mflo $11; lw $8, 4($29); mult $8, $9
    (
        (0x0000_5812, 0x8FA8_0004, 0x0109_0018, 0x0000_0000),
        2,
        Some(Cause::LoadDelay),
    ),
    // mflo $11; div $9, $0
    (
        (0x0000_5812, 0x0120_001A, 0x0000_0000, 0x0000_0000),
        1,
        Some(Cause::HiLo),
    ),
    // div $9, $0
    (
        (0x0120_001A, 0x0000_0000, 0x0000_0000, 0x0000_0000),
        0,
        Some(Cause::Divide),
    ),
    // divu $9, $0
    (
        (0x0120_001B, 0x0000_0000, 0x0000_0000, 0x0000_0000),
        0,
        Some(Cause::Divide),
    ),
    // div $12, $13, which are -2^31 and -1
    (
        (0x018D_001A, 0x0000_0000, 0x0000_0000, 0x0000_0000),
        0,
        Some(Cause::Divide),
    ),
    // divu $12, $13
    (
        (0x018D_001B, 0x0000_0000, 0x0000_0000, 0x0000_0000),
        4,
        None,
    ),
    // add $8, $9, $10
    (
        (0x012A_4020, 0x0000_0000, 0x0000_0000, 0x0000_0000),
        0,
        Some(Cause::Overflow),
    ),
    // addi $8, $9, 1
    (
        (0x2128_0001, 0x0000_0000, 0x0000_0000, 0x0000_0000),
        0,
        Some(Cause::Overflow),
    ),
    // sub $8, $12, $10
    (
        (0x018A_4022, 0x0000_0000, 0x0000_0000, 0x0000_0000),
        0,
        Some(Cause::Overflow),
    ),
    // addu $8, $9, $10
    (
        (0x012A_4021, 0x0000_0000, 0x0000_0000, 0x0000_0000),
        4,
        None,
    ),
    // addiu $8, $9, 1
    (
        (0x2528_0001, 0x0000_0000, 0x0000_0000, 0x0000_0000),
        4,
        None,
    ),
    // subu $8, $12, $10
    (
        (0x018A_4023, 0x0000_0000, 0x0000_0000, 0x0000_0000),
        4,
        None,
    ),
    // lw $8, 2($29)
    (
        (0x8FA8_0002, 0x0000_0000, 0x0000_0000, 0x0000_0000),
        0,
        Some(Cause::Unaligned),
    ),
    // sw $8, 1($0)
    (
        (0xAC08_0001, 0x0000_0000, 0x0000_0000, 0x0000_0000),
        0,
        Some(Cause::Unaligned),
    ),
    // sw $8, 0($0)
    (
        (0xAC08_0000, 0x0000_0000, 0x0000_0000, 0x0000_0000),
        0,
        Some(Cause::Outside),
    ),
    // jalr $9, $9
    (
        (0x0120_4809, 0x0000_0000, 0x0000_0000, 0x0000_0000),
        0,
        Some(Cause::Unlisted),
    ),
    // jr $9, whose target is odd; nop
    (
        (0x0120_0008, 0x0000_0000, 0x0000_0000, 0x0000_0000),
        2,
        Some(Cause::Fetch),
    ),
];

// At rest where the code starts, with the two registers of most words.
fn here(a: u32, b: u32) -> MipsMachine {
    let mut machine = MipsMachine::new();
    machine.set_pc(CODE_BASE);
    machine.set_reg(9, a);
    machine.set_reg(10, b);
    machine
}

#[test]
fn operations(rt: HostRuntime) -> Result<(), Fail> {
    let mut memory: Blocks<BigEndian> = Blocks::new(rt.alloc(), 0, 0)?;
    for (word, a, b, want) in OPERATIONS {
        let mut machine = here(a, b);
        assert_eq!(rt; machine.step(&[word], &mut memory), Outcome::Went);
        assert_eq!(rt; machine.read_reg(8), want);
        assert_eq!(rt; machine.pc(), CODE_BASE + 4);
    }
    for (word, a, b, want) in LOWER {
        let mut machine = here(a, b);
        assert_eq!(rt; machine.step(&[word], &mut memory), Outcome::Went);
        assert_eq!(rt; machine.lo, want);
    }
    for (word, a, b, want) in UPPER {
        let mut machine = here(a, b);
        assert_eq!(rt; machine.step(&[word], &mut memory), Outcome::Went);
        assert_eq!(rt; machine.hi, want);
    }
    Ok(())
}

#[test]
fn branches(rt: HostRuntime) -> Result<(), Fail> {
    let mut memory: Blocks<BigEndian> = Blocks::new(rt.alloc(), 0, 0)?;
    for (word, a, b, taken) in BRANCHES {
        let mut machine = here(a, b);
        // ori $11, $0, 1 is in the slot
        let code = [word, 0x340B_0001];
        assert_eq!(rt; machine.step(&code, &mut memory), Outcome::Went);
        assert_eq!(rt; machine.pc(), CODE_BASE + 4);
        assert_eq!(rt; machine.step(&code, &mut memory), Outcome::Went);
        assert_eq!(rt; machine.read_reg(11), 1);
        let far = if taken { 12 } else { 8 };
        assert_eq!(rt; machine.pc(), CODE_BASE + far);
    }
    Ok(())
}

#[test]
fn loads_and_stores(rt: HostRuntime) -> Result<(), Fail> {
    let mut memory: Blocks<BigEndian> = Blocks::new(rt.alloc(), 1, 0)?;
    for (word, cell, want) in LOADS {
        let mut machine = here(0, BLOCK);
        assert!(rt; memory.store(BLOCK, &cell.to_be_bytes()));
        assert_eq!(rt; machine.step(&[word], &mut memory), Outcome::Went);
        assert_eq!(rt; machine.read_reg(8), want);
    }
    for (word, value, cell, want) in STORES {
        let mut machine = here(value, BLOCK);
        assert!(rt; memory.store(BLOCK, &cell.to_be_bytes()));
        assert_eq!(rt; machine.step(&[word], &mut memory), Outcome::Went);
        let mut bytes = [0u8; 4];
        assert!(rt; memory.load(BLOCK, &mut bytes));
        assert_eq!(rt; u32::from_be_bytes(bytes), want);
    }
    Ok(())
}

#[test]
fn jumps_and_links(rt: HostRuntime) -> Result<(), Fail> {
    let mut memory: Blocks<BigEndian> = Blocks::new(rt.alloc(), 0, 0)?;
    // j 0x00400010, jal 0x00400010, jr $9 and jalr $8, $9, and which register gets the link
    for (word, linked) in [
        (0x0810_0004, 0),
        (0x0C10_0004, 31),
        (0x0120_0008, 0),
        (0x0120_4009, 8),
    ] {
        let mut machine = here(0x0040_0010, 0);
        // addiu $12, $0, -1 is in the slot
        let code = [word, 0x240C_FFFF];
        assert_eq!(rt; machine.step(&code, &mut memory), Outcome::Went);
        assert_eq!(rt; machine.step(&code, &mut memory), Outcome::Went);
        assert_eq!(rt; machine.read_reg(12), 0xFFFF_FFFF);
        assert_eq!(rt; machine.pc(), 0x0040_0010);
        let link = if linked == 0 { 0 } else { CODE_BASE + 8 };
        assert_eq!(rt; machine.read_reg(linked), link);
    }
    Ok(())
}

fn comes_to(others: u32, first: u32) -> Option<Cause> {
    for (listed, from, to, cause) in FIRST_BYTES {
        if listed == others && from <= first && first <= to {
            return cause;
        }
    }
    Some(Cause::Unlisted)
}

#[test]
fn any_first_byte(rt: HostRuntime) -> Result<(), Fail> {
    let mut memory: Blocks<BigEndian> = Blocks::new(rt.alloc(), 1, 0)?;
    for others in [0x0000_0000, 0x00FF_FFFF, 0x005A_5A5A] {
        for first in 0..256 {
            let mut machine = here(0, 0);
            let outcome = machine.step(&[(first << 24) + others], &mut memory);
            match comes_to(others, first) {
                None => {
                    assert_eq!(rt; outcome, Outcome::Went);
                    assert_eq!(rt; machine.pc(), CODE_BASE + 4);
                }
                Some(cause) => {
                    assert_eq!(rt;
                        outcome,
                        Outcome::Trap(Trap {
                            cause,
                            pc: CODE_BASE
                        })
                    );
                    assert_eq!(rt; machine.pc(), CODE_BASE);
                }
            }
        }
    }
    Ok(())
}

// How many instructions are done before one that isn't, up to four.
fn done_in(machine: &mut MipsMachine, code: &[u32], memory: &mut Blocks<BigEndian>) -> u32 {
    for done in 0..4 {
        if machine.step(code, memory) != Outcome::Went {
            return done;
        }
    }
    4
}

#[test]
fn traps_in_their_order(rt: HostRuntime) -> Result<(), Fail> {
    let mut memory: Blocks<BigEndian> = Blocks::new(rt.alloc(), 1, 0)?;
    for ((first, second, third, fourth), done, cause) in PROGRAMS {
        let code = [first, second, third, fourth];
        let mut machine = here(0x7FFF_FFFF, 1);
        machine.set_reg(12, 0x8000_0000);
        machine.set_reg(13, 0xFFFF_FFFF);
        machine.set_reg(29, BLOCK);
        assert_eq!(rt; done_in(&mut machine, &code, &mut memory), done);
        if let Some(cause) = cause {
            let pc = machine.pc();
            assert_eq!(rt;
                machine.step(&code, &mut memory),
                Outcome::Trap(Trap { cause, pc })
            );
            assert_eq!(rt; machine.pc(), pc);
        }
    }
    Ok(())
}

#[test]
fn places_without_code(rt: HostRuntime) -> Result<(), Fail> {
    let mut memory: Blocks<BigEndian> = Blocks::new(rt.alloc(), 0, 0)?;
    for pc in [0x0040_0004, 0x0040_0002, 0x003F_FFFC] {
        let mut machine = here(0, 0);
        machine.set_pc(pc);
        let cause = Cause::Fetch;
        assert_eq!(rt;
            machine.step(&[0x0000_000C], &mut memory),
            Outcome::Trap(Trap { cause, pc })
        );
    }
    Ok(())
}

#[test]
fn the_stop_and_register_0(rt: HostRuntime) -> Result<(), Fail> {
    let mut memory: Blocks<BigEndian> = Blocks::new(rt.alloc(), 0, 0)?;
    let mut machine = here(0, 0);
    // addiu $0, $0, 1, then syscall
    let code = [0x2400_0001, 0x0000_000C];
    assert_eq!(rt; machine.step(&code, &mut memory), Outcome::Went);
    assert_eq!(rt; machine.read_reg(0), 0);
    assert_eq!(rt; machine.step(&code, &mut memory), Outcome::Stop);
    assert_eq!(rt; machine.pc(), CODE_BASE + 4);
    Ok(())
}
