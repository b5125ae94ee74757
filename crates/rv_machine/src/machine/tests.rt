//! Instructions as an emulator runs them, and the order of traps.
//!
//! The first five tables are words that GNU as spelled, with what QEMU made of them.

use super::*;
use byteorder::LittleEndian;
use ec_memory::blocks::Blocks;
use ec_target::outcome::Trap;
use std::test::Fail;

/// Where block 0 begins.
const BLOCK: u32 = 0x1000_0000;

/// Word, x6, x7, and what x5 becomes.
const OPERATIONS: [(u32, u32, u32, u32); 112] = [
    (0x0073_02B3, 0xBC9A_0E0C, 0x0000_007F, 0xBC9A_0E8B),
    (0x4073_02B3, 0xB6A3_CE92, 0x8E65_E4CF, 0x283D_E9C3),
    (0x0073_12B3, 0x8000_0001, 0x647E_C154, 0x0010_0000),
    (0x0073_22B3, 0x2C1F_FACC, 0x0000_0021, 0x0000_0000),
    (0x0073_32B3, 0x5463_852D, 0x423E_96D0, 0x0000_0000),
    (0x0073_42B3, 0xB4E9_A806, 0xFFFF_FFFF, 0x4B16_57F9),
    (0x0073_52B3, 0x8000_0001, 0x0000_7FFF, 0x0000_0001),
    (0x4073_52B3, 0x3F98_E0EE, 0x309D_57ED, 0x0001_FCC7),
    (0x0073_62B3, 0x0000_0005, 0x9442_F362, 0x9442_F367),
    (0x0073_72B3, 0x0000_0004, 0x4311_62A4, 0x0000_0004),
    (0x0273_02B3, 0x0000_0005, 0x0000_0004, 0x0000_0014),
    (0x0273_12B3, 0x70D0_7EBA, 0x0000_0100, 0x0000_0070),
    (0x0273_22B3, 0x0000_001F, 0x4E34_FA77, 0x0000_0009),
    (0x0273_32B3, 0x0000_0020, 0x0000_FFFF, 0x0000_0000),
    (0x0273_42B3, 0xF48F_E7D3, 0x0000_0001, 0xF48F_E7D3),
    (0x0273_52B3, 0x05F5_E71B, 0x3770_54CF, 0x0000_0000),
    (0x0273_62B3, 0x7E94_F5AB, 0xD09D_FA6C, 0x1FD0_EA83),
    (0x0273_72B3, 0xE31E_1292, 0x57AA_5AE1, 0x33C9_5CD0),
    (0x8003_0293, 0x464A_8296, 0x0000_0000, 0x464A_7A96),
    (0x7FF3_2293, 0x1861_0C9F, 0x0000_0000, 0x0000_0000),
    (0x0013_3293, 0x0000_8000, 0x0000_0000, 0x0000_0000),
    (0x7FF3_4293, 0x3C59_3E7F, 0x0000_0000, 0x3C59_3980),
    (0x7FF3_6293, 0x63BC_6601, 0x0000_0000, 0x63BC_67FF),
    (0x8003_7293, 0x5482_909F, 0x0000_0000, 0x5482_9000),
    (0x0053_1293, 0x0000_001F, 0x0000_0000, 0x0000_03E0),
    (0x01E3_5293, 0x0000_0000, 0x0000_0000, 0x0000_0000),
    (0x4123_5293, 0x0000_0100, 0x0000_0000, 0x0000_0000),
    (0xA992_12B7, 0x0000_0000, 0x0000_0000, 0xA992_1000),
    (0x0073_02B3, 0x0000_0021, 0xB89B_02F9, 0xB89B_031A),
    (0x4073_02B3, 0x1281_37EA, 0x0000_0003, 0x1281_37E7),
    (0x0073_12B3, 0x0000_001F, 0xDA27_7078, 0x1F00_0000),
    (0x0073_22B3, 0xFFFF_FFFE, 0x0001_0000, 0x0000_0001),
    (0x0073_32B3, 0x0000_00FF, 0x0000_0080, 0x0000_0000),
    (0x0073_42B3, 0x7FFF_FFFF, 0xFFFF_FFFF, 0x8000_0000),
    (0x0073_52B3, 0x0000_0100, 0xE615_41B6, 0x0000_0000),
    (0x4073_52B3, 0x064D_7A2F, 0x451E_07EA, 0x0001_935E),
    (0x0073_62B3, 0x0000_0080, 0x0000_0001, 0x0000_0081),
    (0x0073_72B3, 0x0EE3_BDCB, 0x502E_5056, 0x0022_1042),
    (0x0273_02B3, 0x42A3_05D5, 0xCE92_44CB, 0xDE4C_33E7),
    (0x0273_12B3, 0xFFFF_FFFF, 0x0000_7FFF, 0xFFFF_FFFF),
    (0x0273_22B3, 0x80B3_8011, 0x5481_E736, 0xD5FA_4D80),
    (0x0273_32B3, 0x8262_CDC5, 0xF4CF_D336, 0x7CB0_0597),
    (0x0273_42B3, 0x7B2C_CE17, 0xFFFF_FFFE, 0xC269_98F5),
    (0x0273_52B3, 0x8614_3E14, 0xB829_62A8, 0x0000_0000),
    (0x0273_62B3, 0x94D4_3EDE, 0x891E_53CB, 0x94D4_3EDE),
    (0x0273_72B3, 0x0000_007F, 0x3331_8247, 0x0000_007F),
    (0x0003_0293, 0x0001_0000, 0x0000_0000, 0x0001_0000),
    (0x0003_2293, 0x0000_0004, 0x0000_0000, 0x0000_0000),
    (0x7FF3_3293, 0xFFFF_FFFE, 0x0000_0000, 0x0000_0000),
    (0xFFF3_4293, 0x0000_00FF, 0x0000_0000, 0xFFFF_FF00),
    (0x8003_6293, 0x8525_71D4, 0x0000_0000, 0xFFFF_F9D4),
    (0xFFF3_7293, 0x0000_0080, 0x0000_0000, 0x0000_0080),
    (0x0113_1293, 0x73AA_1107, 0x0000_0000, 0x220E_0000),
    (0x0183_5293, 0x0000_00FF, 0x0000_0000, 0x0000_0000),
    (0x4053_5293, 0xECE9_D8ED, 0x0000_0000, 0xFF67_4EC7),
    (0x73C2_F2B7, 0x0000_0000, 0x0000_0000, 0x73C2_F000),
    (0x0073_02B3, 0x8B62_CCBA, 0x3056_DDB0, 0xBBB9_AA6A),
    (0x4073_02B3, 0xB9CF_3DDE, 0x0000_0021, 0xB9CF_3DBD),
    (0x0073_12B3, 0x0000_0000, 0xC534_82EC, 0x0000_0000),
    (0x0073_22B3, 0x0000_FFFF, 0x8000_0001, 0x0000_0000),
    (0x0073_32B3, 0xCBD5_DA31, 0x6CF3_EEEA, 0x0000_0000),
    (0x0073_42B3, 0x0000_8000, 0x0000_007F, 0x0000_807F),
    (0x0073_52B3, 0xA45F_419C, 0x0000_0003, 0x148B_E833),
    (0x4073_52B3, 0x8332_AC33, 0xBF32_3EF2, 0xFFFF_E0CC),
    (0x0073_62B3, 0x7FFF_FFFF, 0xFE69_2199, 0xFFFF_FFFF),
    (0x0073_72B3, 0x868F_8154, 0x0001_0000, 0x0001_0000),
    (0x0273_02B3, 0xFFFF_FFFE, 0x73D8_7FD7, 0x184F_0052),
    (0x0273_12B3, 0x0001_0000, 0x0000_0004, 0x0000_0000),
    (0x0273_22B3, 0xFA01_208B, 0x40B3_D0C6, 0xFE7C_1208),
    (0x0273_32B3, 0xFE99_958F, 0xFFFF_FFFF, 0xFE99_958E),
    (0x0273_42B3, 0x5E4D_0C25, 0x0000_007F, 0x00BE_1644),
    (0x0273_52B3, 0xE534_6059, 0x04B1_5253, 0x0000_0030),
    (0x0273_62B3, 0xECD7_8663, 0x0000_0000, 0xECD7_8663),
    (0x0273_72B3, 0x0000_8000, 0x0000_00FF, 0x0000_0080),
    (0xFFF3_0293, 0xDA2D_6582, 0x0000_0000, 0xDA2D_6581),
    (0xFFF3_2293, 0x0000_0003, 0x0000_0000, 0x0000_0000),
    (0x0013_3293, 0x0000_0004, 0x0000_0000, 0x0000_0000),
    (0x8003_4293, 0x5E25_E8A0, 0x0000_0000, 0xA1DA_10A0),
    (0xFFF3_6293, 0xF31A_EB00, 0x0000_0000, 0xFFFF_FFFF),
    (0x5763_7293, 0x498A_FB13, 0x0000_0000, 0x0000_0112),
    (0x01F3_1293, 0x0000_0080, 0x0000_0000, 0x0000_0000),
    (0x0193_5293, 0x0000_FFFF, 0x0000_0000, 0x0000_0000),
    (0x4043_5293, 0x1764_7FA2, 0x0000_0000, 0x0176_47FA),
    (0x7E12_F2B7, 0x0000_0000, 0x0000_0000, 0x7E12_F000),
    (0x0073_02B3, 0xCF69_6E8F, 0x36F1_A8EC, 0x065B_177B),
    (0x4073_02B3, 0x9FA1_6A0C, 0x0000_FFFF, 0x9FA0_6A0D),
    (0x0073_12B3, 0xFFFF_FFFF, 0x0000_0021, 0xFFFF_FFFE),
    (0x0073_22B3, 0xFFFF_FFFE, 0x0000_0003, 0x0000_0001),
    (0x0073_32B3, 0x0000_0021, 0x0000_0020, 0x0000_0000),
    (0x0073_42B3, 0x0000_0004, 0x0000_7FFF, 0x0000_7FFB),
    (0x0073_52B3, 0x9936_EE94, 0x0EF5_4306, 0x0264_DBBA),
    (0x4073_52B3, 0x9BE6_29DB, 0xF224_2639, 0xFFFF_FFCD),
    (0x0073_62B3, 0x0000_0021, 0x0000_007F, 0x0000_007F),
    (0x0073_72B3, 0x0000_001F, 0x8000_0001, 0x0000_0001),
    (0x0273_02B3, 0x0000_0080, 0x0000_0005, 0x0000_0280),
    (0x0273_12B3, 0x949E_BA96, 0x88E6_3E06, 0x31F5_0521),
    (0x0273_22B3, 0x0001_0000, 0x0000_0004, 0x0000_0000),
    (0x0273_32B3, 0xCFDC_3A81, 0x3693_0452, 0x2C4F_D34E),
    (0x0273_42B3, 0x0000_FFFF, 0x0000_0003, 0x0000_5555),
    (0x0273_52B3, 0x0000_0004, 0x399B_6C99, 0x0000_0000),
    (0x0273_62B3, 0x7FFF_FFFF, 0x0CCE_D50D, 0x0CBA_828A),
    (0x0273_72B3, 0xAF4C_DFB5, 0x8000_0000, 0x2F4C_DFB5),
    (0x7FF3_0293, 0x8000_0000, 0x0000_0000, 0x8000_07FF),
    (0x8003_2293, 0x0000_0000, 0x0000_0000, 0x0000_0000),
    (0x0F73_3293, 0x0000_0020, 0x0000_0000, 0x0000_0001),
    (0xFFF3_4293, 0xDC79_1848, 0x0000_0000, 0x2386_E7B7),
    (0x0003_6293, 0x84B7_D15B, 0x0000_0000, 0x84B7_D15B),
    (0x0003_7293, 0x0000_00FF, 0x0000_0000, 0x0000_0000),
    (0x0023_1293, 0x0000_0004, 0x0000_0000, 0x0000_0010),
    (0x0063_5293, 0x0000_0002, 0x0000_0000, 0x0000_0000),
    (0x4113_5293, 0x0000_0020, 0x0000_0000, 0x0000_0000),
    (0x4EE1_72B7, 0x0000_0000, 0x0000_0000, 0x4EE1_7000),
];

/// Word, x6, x7, and whether the branch to 8 bytes on is taken.
const BRANCHES: [(u32, u32, u32, bool); 24] = [
    (0x0073_0463, 0x6661_B877, 0x6661_B877, true),
    (0x0073_1463, 0xA563_2A15, 0xA563_2A15, false),
    (0x0073_4463, 0x03E2_E7C4, 0x8AE6_3AB1, false),
    (0x0073_5463, 0x0000_0100, 0x0000_0100, true),
    (0x0073_6463, 0xFFFF_FFFE, 0x0914_89CD, false),
    (0x0073_7463, 0x8660_194D, 0x0000_0021, true),
    (0x0073_0463, 0xCD26_6EA8, 0xCD26_6EA8, true),
    (0x0073_1463, 0x0000_FFFF, 0xC8B0_DA28, true),
    (0x0073_4463, 0x8000_0000, 0xFFFF_FFFE, true),
    (0x0073_5463, 0x0000_007F, 0x8839_9110, true),
    (0x0073_6463, 0x0771_48A5, 0x0771_48A5, false),
    (0x0073_7463, 0x9012_0EA1, 0x9012_0EA1, true),
    (0x0073_0463, 0x0000_0004, 0x0000_0004, true),
    (0x0073_1463, 0x0000_0021, 0x0000_0021, false),
    (0x0073_4463, 0x1954_F128, 0xD598_C859, false),
    (0x0073_5463, 0x0000_7FFF, 0x8CB2_5244, true),
    (0x0073_6463, 0x0000_7FFF, 0xF837_A7D6, true),
    (0x0073_7463, 0xBC09_8FD8, 0xFFFF_FFFF, false),
    (0x0073_0463, 0x5C9C_1898, 0x5C9C_1898, true),
    (0x0073_1463, 0x0000_0100, 0xB0F9_2F03, true),
    (0x0073_4463, 0xFFFF_FFFF, 0x0000_0080, true),
    (0x0073_5463, 0x1CB9_EEA1, 0xA425_38DB, true),
    (0x0073_6463, 0x203A_FA3A, 0x67B8_C2F8, true),
    (0x0073_7463, 0x8000_0000, 0x907F_2360, false),
];

/// Word, the word at x7, and what x5 becomes.
const LOADS: [(u32, u32, u32); 20] = [
    (0x0003_8283, 0x6EB8_F85F, 0x0000_005F),
    (0x0003_9283, 0x0000_FFFF, 0xFFFF_FFFF),
    (0x0003_A283, 0xAFD0_3FB9, 0xAFD0_3FB9),
    (0x0023_C283, 0x63C3_817C, 0x0000_00C3),
    (0x0023_D283, 0xF837_5D93, 0x0000_F837),
    (0x0003_8283, 0x0000_7FFF, 0xFFFF_FFFF),
    (0x0023_9283, 0xFA85_459D, 0xFFFF_FA85),
    (0x0003_A283, 0x344F_EFE1, 0x344F_EFE1),
    (0x0003_C283, 0x8000_0000, 0x0000_0000),
    (0x0003_D283, 0xCB51_7E6A, 0x0000_7E6A),
    (0x0023_8283, 0xFEC0_8E90, 0xFFFF_FFC0),
    (0x0023_9283, 0x2DD5_AD98, 0x0000_2DD5),
    (0x0003_A283, 0xB444_090F, 0xB444_090F),
    (0x0003_C283, 0xAD43_3669, 0x0000_0069),
    (0x0023_D283, 0x1FB0_975F, 0x0000_1FB0),
    (0x0023_8283, 0x0000_0100, 0x0000_0000),
    (0x0023_9283, 0xA1FA_8DF8, 0xFFFF_A1FA),
    (0x0003_A283, 0x0DCE_F328, 0x0DCE_F328),
    (0x0033_C283, 0x0000_001F, 0x0000_0000),
    (0x0023_D283, 0x0000_0000, 0x0000_0000),
];

/// Word, x6, the word at x7, and what that word becomes.
const STORES: [(u32, u32, u32, u32); 12] = [
    (0x0063_80A3, 0x3E3B_4290, 0x8000_0000, 0x8000_9000),
    (0x0063_9023, 0x8000_0001, 0xA36C_F2B9, 0xA36C_0001),
    (0x0063_A023, 0x8C03_54BE, 0x0000_001F, 0x8C03_54BE),
    (0x0063_8023, 0x2C61_CBEC, 0x6E9D_7077, 0x6E9D_70EC),
    (0x0063_9123, 0xE667_43DC, 0xB5D4_CE45, 0x43DC_CE45),
    (0x0063_A023, 0x0000_001F, 0xDD90_F85B, 0x0000_001F),
    (0x0063_8023, 0x0001_0000, 0x0000_0100, 0x0000_0100),
    (0x0063_9023, 0x7AAC_3FA2, 0x0000_0100, 0x0000_3FA2),
    (0x0063_A023, 0x0000_0021, 0x7FFF_FFFF, 0x0000_0021),
    (0x0063_80A3, 0xF1E0_9E06, 0x7925_DE5F, 0x7925_065F),
    (0x0063_9123, 0x0000_0003, 0x11AE_E297, 0x0003_E297),
    (0x0063_A023, 0xD804_76A6, 0x81E2_021B, 0xD804_76A6),
];

/// Word, and how far behind the instruction's place the place in x5 is.
const FROM_HERE: [(u32, u32); 8] = [
    (0xEB7F_E297, 0xEB7F_E000),
    (0x0040_02EF, 0x0000_0004),
    (0x6CE9_E297, 0x6CE9_E000),
    (0x0040_02EF, 0x0000_0004),
    (0xDE72_4297, 0xDE72_4000),
    (0x0040_02EF, 0x0000_0004),
    (0x9E79_C297, 0x9E79_C000),
    (0x0040_02EF, 0x0000_0004),
];

/// Words with any first byte and with three bytes 00, FF or 5A behind it that go on from 0x00400000 with zero in each
/// register, and where to.
const GO_ON: [(u32, u32); 28] = [
    (0x0000_0013, 0x0040_0004),
    (0x0000_0017, 0x0040_0004),
    (0x0000_0033, 0x0040_0004),
    (0x0000_0037, 0x0040_0004),
    (0x0000_0063, 0x0040_0000),
    (0x0000_0067, 0x0000_0000),
    (0x0000_006F, 0x0040_0000),
    (0x0000_0093, 0x0040_0004),
    (0x0000_0097, 0x0040_0004),
    (0x0000_00B3, 0x0040_0004),
    (0x0000_00B7, 0x0040_0004),
    (0x0000_00E3, 0x0040_0800),
    (0x0000_00E7, 0x0000_0000),
    (0x0000_00EF, 0x0040_0000),
    (0xFFFF_FF13, 0x0040_0004),
    (0xFFFF_FF17, 0x0040_0004),
    (0xFFFF_FF37, 0x0040_0004),
    (0xFFFF_FF93, 0x0040_0004),
    (0xFFFF_FF97, 0x0040_0004),
    (0xFFFF_FFB7, 0x0040_0004),
    (0x5A5A_5A17, 0x0040_0004),
    (0x5A5A_5A37, 0x0040_0004),
    (0x5A5A_5A63, 0x0040_05B4),
    (0x5A5A_5A6F, 0x004A_5DA4),
    (0x5A5A_5A97, 0x0040_0004),
    (0x5A5A_5AB7, 0x0040_0004),
    (0x5A5A_5AE3, 0x0040_0DB4),
    (0x5A5A_5AEF, 0x004A_5DA4),
];

/// Those that trap so.
const TRAP: [(u32, Cause); 10] = [
    (0x0000_0003, Cause::Outside),
    (0x0000_0023, Cause::Outside),
    (0x0000_0083, Cause::Outside),
    (0x0000_00A3, Cause::Outside),
    (0xFFFF_FF63, Cause::Unaligned),
    (0xFFFF_FF6F, Cause::Unaligned),
    (0xFFFF_FFE3, Cause::Unaligned),
    (0xFFFF_FFEF, Cause::Unaligned),
    (0x5A5A_5A03, Cause::Unaligned),
    (0x5A5A_5A83, Cause::Unaligned),
];

fn here() -> RvMachine {
    let mut machine = RvMachine::new();
    machine.set_pc(CODE_BASE);
    machine
}

fn trap(cause: Cause) -> Outcome {
    Outcome::Trap(Trap {
        cause,
        pc: CODE_BASE,
    })
}

#[test]
fn operations(rt: HostRuntime) -> Result<(), Fail> {
    let mut memory: Blocks<LittleEndian> = Blocks::new(rt.alloc(), 0, 0)?;
    for (word, a, b, want) in OPERATIONS {
        let mut machine = here();
        machine.set_reg(6, a);
        machine.set_reg(7, b);
        assert_eq!(rt; machine.step(&[word], &mut memory), Outcome::Went);
        assert_eq!(rt; machine.read_reg(5), want);
        assert_eq!(rt; machine.pc(), CODE_BASE + 4);
    }
    Ok(())
}

#[test]
fn branches(rt: HostRuntime) -> Result<(), Fail> {
    let mut memory: Blocks<LittleEndian> = Blocks::new(rt.alloc(), 0, 0)?;
    for (word, a, b, taken) in BRANCHES {
        let mut machine = here();
        machine.set_reg(6, a);
        machine.set_reg(7, b);
        assert_eq!(rt; machine.step(&[word], &mut memory), Outcome::Went);
        let far = if taken { 8 } else { 4 };
        assert_eq!(rt; machine.pc(), CODE_BASE + far);
    }
    Ok(())
}

#[test]
fn loads(rt: HostRuntime) -> Result<(), Fail> {
    let mut memory: Blocks<LittleEndian> = Blocks::new(rt.alloc(), 1, 0)?;
    for (word, cell, want) in LOADS {
        let mut machine = here();
        machine.set_reg(7, BLOCK);
        assert!(rt; memory.store(BLOCK, &cell.to_le_bytes()));
        assert_eq!(rt; machine.step(&[word], &mut memory), Outcome::Went);
        assert_eq!(rt; machine.read_reg(5), want);
        assert_eq!(rt; machine.pc(), CODE_BASE + 4);
    }
    Ok(())
}

#[test]
fn stores(rt: HostRuntime) -> Result<(), Fail> {
    let mut memory: Blocks<LittleEndian> = Blocks::new(rt.alloc(), 1, 0)?;
    for (word, value, cell, want) in STORES {
        let mut machine = here();
        machine.set_reg(6, value);
        machine.set_reg(7, BLOCK);
        assert!(rt; memory.store(BLOCK, &cell.to_le_bytes()));
        assert_eq!(rt; machine.step(&[word], &mut memory), Outcome::Went);
        let mut bytes = [0u8; 4];
        assert!(rt; memory.load(BLOCK, &mut bytes));
        assert_eq!(rt; u32::from_le_bytes(bytes), want);
        assert_eq!(rt; machine.pc(), CODE_BASE + 4);
    }
    Ok(())
}

#[test]
fn places_from_here(rt: HostRuntime) -> Result<(), Fail> {
    let mut memory: Blocks<LittleEndian> = Blocks::new(rt.alloc(), 0, 0)?;
    for (word, far) in FROM_HERE {
        let mut machine = here();
        assert_eq!(rt; machine.step(&[word], &mut memory), Outcome::Went);
        assert_eq!(rt; machine.read_reg(5).wrapping_sub(CODE_BASE), far);
        assert_eq!(rt; machine.pc(), CODE_BASE + 4);
    }
    Ok(())
}

fn goes_on_to(word: u32) -> Option<u32> {
    for (listed, pc) in GO_ON {
        if listed == word {
            return Some(pc);
        }
    }
    None
}

fn traps_by(word: u32) -> Cause {
    for (listed, cause) in TRAP {
        if listed == word {
            return cause;
        }
    }
    Cause::Unlisted
}

#[test]
fn any_first_byte(rt: HostRuntime) -> Result<(), Fail> {
    let mut memory: Blocks<LittleEndian> = Blocks::new(rt.alloc(), 1, 0)?;
    for others in [0x0000_0000, 0xFFFF_FF00, 0x5A5A_5A00] {
        for first in 0..256 {
            let word = others + first;
            let mut machine = here();
            let outcome = machine.step(&[word], &mut memory);
            if word == 0x0000_0073 {
                assert_eq!(rt; outcome, Outcome::Stop);
                assert_eq!(rt; machine.pc(), CODE_BASE);
            } else if let Some(pc) = goes_on_to(word) {
                assert_eq!(rt; outcome, Outcome::Went);
                assert_eq!(rt; machine.pc(), pc);
            } else {
                assert_eq!(rt; outcome, trap(traps_by(word)));
                assert_eq!(rt; machine.pc(), CODE_BASE);
            }
        }
    }
    Ok(())
}

#[test]
fn traps_in_their_order(rt: HostRuntime) -> Result<(), Fail> {
    let mut memory: Blocks<LittleEndian> = Blocks::new(rt.alloc(), 1, 0)?;
    // lw x8, -1(x17), sw x5, 0(x2), a word of no instruction, lh x1, 1(x0), lb x1, 1(x0), and jal x1, .+6
    let code = [
        0xFFF8_A403,
        0x0051_2023,
        0xFFFF_FFFF,
        0x0010_1083,
        0x0010_0083,
        0x0060_00EF,
    ];
    let cases = [
        (0x0040_0000, Cause::Unaligned),
        (0x0040_0004, Cause::Outside),
        (0x0040_0008, Cause::Unlisted),
        (0x0040_000C, Cause::Unaligned),
        (0x0040_0010, Cause::Outside),
        (0x0040_0014, Cause::Unaligned),
        (0x0040_0018, Cause::Fetch),
        (0x0040_0002, Cause::Fetch),
        (0x003F_FFFC, Cause::Fetch),
    ];
    for (pc, cause) in cases {
        let mut machine = RvMachine::new();
        machine.set_pc(pc);
        assert_eq!(rt;
            machine.step(&code, &mut memory),
            Outcome::Trap(Trap { cause, pc })
        );
        assert_eq!(rt; machine.read_reg(1), 0);
        assert_eq!(rt; machine.pc(), pc);
    }
    Ok(())
}

#[test]
fn register_0_reads_zero(rt: HostRuntime) -> Result<(), Fail> {
    let mut memory: Blocks<LittleEndian> = Blocks::new(rt.alloc(), 0, 0)?;
    let mut machine = here();
    machine.set_reg(0, 7);
    assert_eq!(rt; machine.read_reg(0), 0);
    // lui x0, 1
    assert_eq!(rt; machine.step(&[0x0000_1037], &mut memory), Outcome::Went);
    assert_eq!(rt; machine.read_reg(0), 0);
    Ok(())
}

#[test]
fn a_jump_to_an_odd_place(rt: HostRuntime) -> Result<(), Fail> {
    let mut memory: Blocks<LittleEndian> = Blocks::new(rt.alloc(), 0, 0)?;
    let mut machine = here();
    machine.set_reg(6, 0x0040_0101);
    // jalr x6, -1(x6), then jalr x5, 4(x6)
    assert_eq!(rt; machine.step(&[0xFFF3_0367], &mut memory), Outcome::Went);
    assert_eq!(rt; machine.pc(), 0x0040_0100);
    assert_eq!(rt; machine.read_reg(6), 0x0040_0004);
    machine.set_reg(6, 0x0040_0105);
    machine.set_pc(CODE_BASE);
    assert_eq!(rt; machine.step(&[0x0043_02E7], &mut memory), Outcome::Went);
    assert_eq!(rt; machine.pc(), 0x0040_0108);
    Ok(())
}
