//! Words as an assembler spells them and a disassembler reads them.
//!
//! The tables are what GNU as spelled, and at the words of one byte repeated what LLVM 14 reads. Numbers stand as in
//! the assembler's text: registers by number, then signed numbers.

use super::*;

/// Word, operation, rd, rs1, rs2.
const ON_REGISTERS: [(u32, Operation, u32, u32, u32); 75] = [
    (0x0102_0433, Operation::Add, 8, 4, 16),
    (0x41CF_83B3, Operation::Sub, 7, 31, 28),
    (0x00DC_1F33, Operation::Sll, 30, 24, 13),
    (0x001F_A333, Operation::Slt, 6, 31, 1),
    (0x000D_BC33, Operation::Sltu, 24, 27, 0),
    (0x00E8_CE33, Operation::Xor, 28, 17, 14),
    (0x001A_5333, Operation::Srl, 6, 20, 1),
    (0x4000_D0B3, Operation::Sra, 1, 1, 0),
    (0x01B6_EC33, Operation::Or, 24, 13, 27),
    (0x01C7_70B3, Operation::And, 1, 14, 28),
    (0x0367_0FB3, Operation::Mul, 31, 14, 22),
    (0x03D7_1733, Operation::Mulh, 14, 14, 29),
    (0x03A0_A933, Operation::Mulhsu, 18, 1, 26),
    (0x0325_B333, Operation::Mulhu, 6, 11, 18),
    (0x03BA_C3B3, Operation::Div, 7, 21, 27),
    (0x0329_D633, Operation::Divu, 12, 19, 18),
    (0x022C_EFB3, Operation::Rem, 31, 25, 2),
    (0x0397_FF33, Operation::Remu, 30, 15, 25),
    (0x0017_00B3, Operation::Add, 1, 14, 1),
    (0x4024_8CB3, Operation::Sub, 25, 9, 2),
    (0x01BE_1533, Operation::Sll, 10, 28, 27),
    (0x00EE_2733, Operation::Slt, 14, 28, 14),
    (0x014C_B0B3, Operation::Sltu, 1, 25, 20),
    (0x0131_CDB3, Operation::Xor, 27, 3, 19),
    (0x0036_D433, Operation::Srl, 8, 13, 3),
    (0x4042_59B3, Operation::Sra, 19, 4, 4),
    (0x00A9_E9B3, Operation::Or, 19, 19, 10),
    (0x0088_7D33, Operation::And, 26, 16, 8),
    (0x02D1_0033, Operation::Mul, 0, 2, 13),
    (0x0225_1EB3, Operation::Mulh, 29, 10, 2),
    (0x0366_2C33, Operation::Mulhsu, 24, 12, 22),
    (0x03B6_B333, Operation::Mulhu, 6, 13, 27),
    (0x026F_C633, Operation::Div, 12, 31, 6),
    (0x03F9_5C33, Operation::Divu, 24, 18, 31),
    (0x039A_60B3, Operation::Rem, 1, 20, 25),
    (0x02A0_F933, Operation::Remu, 18, 1, 10),
    (0x0142_0233, Operation::Add, 4, 4, 20),
    (0x4103_8EB3, Operation::Sub, 29, 7, 16),
    (0x016F_16B3, Operation::Sll, 13, 30, 22),
    (0x00D5_A833, Operation::Slt, 16, 11, 13),
    (0x00F6_39B3, Operation::Sltu, 19, 12, 15),
    (0x0112_CBB3, Operation::Xor, 23, 5, 17),
    (0x005E_52B3, Operation::Srl, 5, 28, 5),
    (0x4187_5AB3, Operation::Sra, 21, 14, 24),
    (0x0141_69B3, Operation::Or, 19, 2, 20),
    (0x013A_75B3, Operation::And, 11, 20, 19),
    (0x026A_87B3, Operation::Mul, 15, 21, 6),
    (0x02E7_92B3, Operation::Mulh, 5, 15, 14),
    (0x0397_A0B3, Operation::Mulhsu, 1, 15, 25),
    (0x0248_B233, Operation::Mulhu, 4, 17, 4),
    (0x0200_C233, Operation::Div, 4, 1, 0),
    (0x03FB_5933, Operation::Divu, 18, 22, 31),
    (0x0264_EF33, Operation::Rem, 30, 9, 6),
    (0x02B2_7A33, Operation::Remu, 20, 4, 11),
    (0x0102_8133, Operation::Add, 2, 5, 16),
    (0x4058_8333, Operation::Sub, 6, 17, 5),
    (0x01C2_9433, Operation::Sll, 8, 5, 28),
    (0x01BC_27B3, Operation::Slt, 15, 24, 27),
    (0x0145_3CB3, Operation::Sltu, 25, 10, 20),
    (0x01F4_4E33, Operation::Xor, 28, 8, 31),
    (0x01B3_D6B3, Operation::Srl, 13, 7, 27),
    (0x4123_DD33, Operation::Sra, 26, 7, 18),
    (0x0187_E8B3, Operation::Or, 17, 15, 24),
    (0x01C6_7033, Operation::And, 0, 12, 28),
    (0x02F0_80B3, Operation::Mul, 1, 1, 15),
    (0x02B6_9833, Operation::Mulh, 16, 13, 11),
    (0x02C4_A933, Operation::Mulhsu, 18, 9, 12),
    (0x0309_B8B3, Operation::Mulhu, 17, 19, 16),
    (0x0365_4E33, Operation::Div, 28, 10, 22),
    (0x027D_5FB3, Operation::Divu, 31, 26, 7),
    (0x02DC_66B3, Operation::Rem, 13, 24, 13),
    (0x0213_7933, Operation::Remu, 18, 6, 1),
    (0x0220_C1B3, Operation::Div, 3, 1, 2),
    (0x0000_0033, Operation::Add, 0, 0, 0),
    (0x0000_00B3, Operation::Add, 1, 0, 0),
];

/// Word, operation, rd, rs1, number.
const ON_IMMEDIATES: [(u32, Immediate, u32, u32, i32); 29] = [
    (0x8005_8D13, Immediate::Addi, 26, 11, -2048),
    (0x60B2_AB93, Immediate::Slti, 23, 5, 1547),
    (0xFFF5_3313, Immediate::Sltiu, 6, 10, -1),
    (0x0000_CF93, Immediate::Xori, 31, 1, 0),
    (0x001C_E993, Immediate::Ori, 19, 25, 1),
    (0x8000_7713, Immediate::Andi, 14, 0, -2048),
    (0xFFFA_0613, Immediate::Addi, 12, 20, -1),
    (0x0876_AD93, Immediate::Slti, 27, 13, 135),
    (0x300C_3313, Immediate::Sltiu, 6, 24, 768),
    (0xA177_CF93, Immediate::Xori, 31, 15, -1513),
    (0x0012_E113, Immediate::Ori, 2, 5, 1),
    (0xFFF6_F513, Immediate::Andi, 10, 13, -1),
    (0xFFF4_8593, Immediate::Addi, 11, 9, -1),
    (0x0013_2993, Immediate::Slti, 19, 6, 1),
    (0xFFF4_B693, Immediate::Sltiu, 13, 9, -1),
    (0x7FF5_C693, Immediate::Xori, 13, 11, 2047),
    (0xFFF1_E513, Immediate::Ori, 10, 3, -1),
    (0x800E_7213, Immediate::Andi, 4, 28, -2048),
    (0x17C0_0393, Immediate::Addi, 7, 0, 380),
    (0x8002_2413, Immediate::Slti, 8, 4, -2048),
    (0x800D_B993, Immediate::Sltiu, 19, 27, -2048),
    (0x7FF0_4A13, Immediate::Xori, 20, 0, 2047),
    (0x800B_6E13, Immediate::Ori, 28, 22, -2048),
    (0x000A_FC93, Immediate::Andi, 25, 21, 0),
    (0xFFF0_0293, Immediate::Addi, 5, 0, -1),
    (0x0000_0013, Immediate::Addi, 0, 0, 0),
    (0x0000_0093, Immediate::Addi, 1, 0, 0),
    (0xFFFF_FF13, Immediate::Andi, 30, 31, -1),
    (0xFFFF_FF93, Immediate::Andi, 31, 31, -1),
];

/// Word, shift, rd, rs1, amount.
const SHIFTS: [(u32, Shift, u32, u32, u32); 12] = [
    (0x016C_9713, Shift::Slli, 14, 25, 22),
    (0x011E_DB13, Shift::Srli, 22, 29, 17),
    (0x408C_5013, Shift::Srai, 0, 24, 8),
    (0x015B_9813, Shift::Slli, 16, 23, 21),
    (0x0123_DA93, Shift::Srli, 21, 7, 18),
    (0x408F_D793, Shift::Srai, 15, 31, 8),
    (0x01DE_1813, Shift::Slli, 16, 28, 29),
    (0x015C_D013, Shift::Srli, 0, 25, 21),
    (0x41F8_5513, Shift::Srai, 10, 16, 31),
    (0x00DC_1C13, Shift::Slli, 24, 24, 13),
    (0x00C8_D013, Shift::Srli, 0, 17, 12),
    (0x413D_5E93, Shift::Srai, 29, 26, 19),
];

/// Word, branch, rs1, rs2, offset.
const BRANCHES: [(u32, Branch, u32, u32, i32); 30] = [
    (0x2965_8A63, Branch::Beq, 11, 22, 660),
    (0xA2A2_1BE3, Branch::Bne, 4, 10, -1482),
    (0x16A8_4B63, Branch::Blt, 16, 10, 374),
    (0x49D9_5D63, Branch::Bge, 18, 29, 1178),
    (0xF5EF_E763, Branch::Bltu, 31, 30, -2226),
    (0x0B30_FEE3, Branch::Bgeu, 1, 19, 2236),
    (0x2EF6_08E3, Branch::Beq, 12, 15, 2800),
    (0x4C75_1DE3, Branch::Bne, 10, 7, 3290),
    (0xA2F5_46E3, Branch::Blt, 10, 15, -1492),
    (0x03B3_5AE3, Branch::Bge, 6, 27, 2100),
    (0x6909_63E3, Branch::Bltu, 18, 16, 3718),
    (0xD46A_74E3, Branch::Bgeu, 20, 6, -696),
    (0xC837_0A63, Branch::Beq, 14, 3, -2924),
    (0xD0AB_95E3, Branch::Bne, 23, 10, -758),
    (0x3339_C663, Branch::Blt, 19, 19, 812),
    (0x5AAB_DFE3, Branch::Bge, 23, 10, 3518),
    (0x0272_E2E3, Branch::Bltu, 5, 7, 2084),
    (0x0095_F463, Branch::Bgeu, 11, 9, 8),
    (0x5EAF_82E3, Branch::Beq, 31, 10, 3556),
    (0xE511_1763, Branch::Bne, 2, 17, -2482),
    (0x6A4D_CD63, Branch::Blt, 27, 4, 1722),
    (0x95C2_5163, Branch::Bge, 4, 28, -3774),
    (0xDEA5_6A63, Branch::Bltu, 10, 10, -2572),
    (0x371C_FD63, Branch::Bgeu, 25, 17, 890),
    (0x0000_0063, Branch::Beq, 0, 0, 0),
    (0x0000_00E3, Branch::Beq, 0, 0, 2048),
    (0xFFFF_FF63, Branch::Bgeu, 31, 31, -2050),
    (0xFFFF_FFE3, Branch::Bgeu, 31, 31, -2),
    (0x5A5A_5A63, Branch::Bge, 20, 5, 1460),
    (0x5A5A_5AE3, Branch::Bge, 20, 5, 3508),
];

/// Word, load, rd, offset, rs1.
const LOADS: [(u32, Load, u32, i32, u32); 24] = [
    (0x000F_0683, Load::Lb, 13, 0, 30),
    (0x800D_1B83, Load::Lh, 23, -2048, 26),
    (0x7FFB_2F83, Load::Lw, 31, 2047, 22),
    (0x7FF0_C003, Load::Lbu, 0, 2047, 1),
    (0x8005_D703, Load::Lhu, 14, -2048, 11),
    (0x000D_0303, Load::Lb, 6, 0, 26),
    (0x0014_1203, Load::Lh, 4, 1, 8),
    (0x800C_2A83, Load::Lw, 21, -2048, 24),
    (0x8002_C203, Load::Lbu, 4, -2048, 5),
    (0xFFF3_D883, Load::Lhu, 17, -1, 7),
    (0x8000_8083, Load::Lb, 1, -2048, 1),
    (0x8004_1183, Load::Lh, 3, -2048, 8),
    (0xFFF8_A403, Load::Lw, 8, -1, 17),
    (0x0012_CC83, Load::Lbu, 25, 1, 5),
    (0x0005_D703, Load::Lhu, 14, 0, 11),
    (0x8006_0503, Load::Lb, 10, -2048, 12),
    (0x81CC_1B83, Load::Lh, 23, -2020, 24),
    (0xFFF2_2D83, Load::Lw, 27, -1, 4),
    (0xFEC9_4F83, Load::Lbu, 31, -20, 18),
    (0x5064_D083, Load::Lhu, 1, 1286, 9),
    (0x0000_0003, Load::Lb, 0, 0, 0),
    (0x0000_0083, Load::Lb, 1, 0, 0),
    (0x5A5A_5A03, Load::Lhu, 20, 1445, 20),
    (0x5A5A_5A83, Load::Lhu, 21, 1445, 20),
];

/// Word, store, rs2, offset, rs1.
const STORES: [(u32, Store, u32, i32, u32); 14] = [
    (0x0052_0023, Store::Sb, 5, 0, 4),
    (0x7E50_1FA3, Store::Sh, 5, 2047, 0),
    (0xFF13_AFA3, Store::Sw, 17, -1, 7),
    (0x01D1_0023, Store::Sb, 29, 0, 2),
    (0x8120_1023, Store::Sh, 18, -2048, 0),
    (0x0051_2023, Store::Sw, 5, 0, 2),
    (0x6147_0323, Store::Sb, 20, 1542, 14),
    (0x7EFF_1FA3, Store::Sh, 15, 2047, 30),
    (0xFEE8_AFA3, Store::Sw, 14, -1, 17),
    (0x0192_00A3, Store::Sb, 25, 1, 4),
    (0xFE0D_1FA3, Store::Sh, 0, -1, 26),
    (0x7F38_2FA3, Store::Sw, 19, 2047, 16),
    (0x0000_0023, Store::Sb, 0, 0, 0),
    (0x0000_00A3, Store::Sb, 0, 1, 0),
];

/// JAL: word, rd, offset.
const JUMPS: [(u32, u32, i32); 10] = [
    (0x054A_FAEF, 21, 716884),
    (0x9232_8A6F, 20, -882398),
    (0xD77D_EDEF, 27, -135818),
    (0xB17D_46EF, 13, -177386),
    (0x0000_006F, 0, 0),
    (0x0000_00EF, 1, 0),
    (0xFFFF_FF6F, 30, -2),
    (0xFFFF_FFEF, 31, -2),
    (0x5A5A_5A6F, 20, 679332),
    (0x5A5A_5AEF, 21, 679332),
];

/// JALR: word, rd, offset, rs1.
const JUMPS_TO_REGISTERS: [(u32, u32, i32, u32); 6] = [
    (0x0008_0667, 12, 0, 16),
    (0xFFFA_00E7, 1, -1, 20),
    (0x7D7C_81E7, 3, 2007, 25),
    (0xFFF2_07E7, 15, -1, 4),
    (0x0000_0067, 0, 0, 0),
    (0x0000_00E7, 1, 0, 0),
];

/// LUI: word, rd, number.
const UPPERS: [(u32, u32, u32); 10] = [
    (0xF72F_26B7, 13, 1012466),
    (0x642A_3E37, 28, 410275),
    (0x624C_4B37, 22, 402628),
    (0xB2FE_7237, 4, 733159),
    (0x0000_0037, 0, 0),
    (0x0000_00B7, 1, 0),
    (0xFFFF_FF37, 30, 1048575),
    (0xFFFF_FFB7, 31, 1048575),
    (0x5A5A_5A37, 20, 370085),
    (0x5A5A_5AB7, 21, 370085),
];

/// AUIPC: word, rd, number.
const UPPERS_FROM_HERE: [(u32, u32, u32); 10] = [
    (0xD129_8D97, 27, 856728),
    (0x6607_BA17, 20, 417915),
    (0x8B52_3517, 10, 570659),
    (0x77CA_BB97, 23, 490667),
    (0x0000_0017, 0, 0),
    (0x0000_0097, 1, 0),
    (0xFFFF_FF17, 30, 1048575),
    (0xFFFF_FF97, 31, 1048575),
    (0x5A5A_5A17, 20, 370085),
    (0x5A5A_5A97, 21, 370085),
];

/// Of the words with any first byte and with three bytes 00, FF or 5A behind it, those that are listed: LLVM 14 reads
/// these, and beside them only FENCE and the instructions on control and status registers, which aren't in the table.
const LISTED: [u32; 39] = [
    0x0000_0003,
    0x0000_0013,
    0x0000_0017,
    0x0000_0023,
    0x0000_0033,
    0x0000_0037,
    0x0000_0063,
    0x0000_0067,
    0x0000_006F,
    0x0000_0073,
    0x0000_0083,
    0x0000_0093,
    0x0000_0097,
    0x0000_00A3,
    0x0000_00B3,
    0x0000_00B7,
    0x0000_00E3,
    0x0000_00E7,
    0x0000_00EF,
    0xFFFF_FF13,
    0xFFFF_FF17,
    0xFFFF_FF37,
    0xFFFF_FF63,
    0xFFFF_FF6F,
    0xFFFF_FF93,
    0xFFFF_FF97,
    0xFFFF_FFB7,
    0xFFFF_FFE3,
    0xFFFF_FFEF,
    0x5A5A_5A03,
    0x5A5A_5A17,
    0x5A5A_5A37,
    0x5A5A_5A63,
    0x5A5A_5A6F,
    0x5A5A_5A83,
    0x5A5A_5A97,
    0x5A5A_5AB7,
    0x5A5A_5AE3,
    0x5A5A_5AEF,
];

fn register(number: u32) -> Register {
    Register {
        number: number % 32,
    }
}

fn twelve(number: i32) -> Twelve {
    Twelve {
        bits: number.cast_unsigned() % 0x1000,
    }
}

#[test]
fn operations_on_registers(rt: HostRuntime) {
    for (word, operation, rd, rs1, rs2) in ON_REGISTERS {
        let instr = Instr::OnRegisters {
            operation,
            rd: register(rd),
            rs1: register(rs1),
            rs2: register(rs2),
        };
        assert_eq!(rt; encode(instr), word);
        assert_eq!(rt; decode(word), Some(instr));
    }
}

#[test]
fn operations_with_numbers(rt: HostRuntime) {
    for (word, operation, rd, rs1, number) in ON_IMMEDIATES {
        let instr = Instr::OnImmediate {
            operation,
            rd: register(rd),
            rs1: register(rs1),
            number: twelve(number),
        };
        assert_eq!(rt; encode(instr), word);
        assert_eq!(rt; decode(word), Some(instr));
    }
}

#[test]
fn shifts(rt: HostRuntime) {
    for (word, shift, rd, rs1, amount) in SHIFTS {
        let instr = Instr::OnShift {
            shift,
            rd: register(rd),
            rs1: register(rs1),
            amount: Amount { bits: amount % 32 },
        };
        assert_eq!(rt; encode(instr), word);
        assert_eq!(rt; decode(word), Some(instr));
    }
}

#[test]
fn branches(rt: HostRuntime) {
    for (word, branch, rs1, rs2, offset) in BRANCHES {
        let instr = Instr::BranchIf {
            branch,
            rs1: register(rs1),
            rs2: register(rs2),
            offset: BranchOffset {
                bits: offset.cast_unsigned() % 0x2000 / 2 * 2,
            },
        };
        assert_eq!(rt; encode(instr), word);
        assert_eq!(rt; decode(word), Some(instr));
    }
}

#[test]
fn loads(rt: HostRuntime) {
    for (word, load, rd, offset, rs1) in LOADS {
        let instr = Instr::LoadFrom {
            load,
            rd: register(rd),
            rs1: register(rs1),
            offset: twelve(offset),
        };
        assert_eq!(rt; encode(instr), word);
        assert_eq!(rt; decode(word), Some(instr));
    }
}

#[test]
fn stores(rt: HostRuntime) {
    for (word, store, rs2, offset, rs1) in STORES {
        let instr = Instr::StoreTo {
            store,
            rs1: register(rs1),
            rs2: register(rs2),
            offset: twelve(offset),
        };
        assert_eq!(rt; encode(instr), word);
        assert_eq!(rt; decode(word), Some(instr));
    }
}

#[test]
fn jumps(rt: HostRuntime) {
    for (word, rd, offset) in JUMPS {
        let instr = Instr::Jal {
            rd: register(rd),
            offset: JumpOffset {
                bits: offset.cast_unsigned() % 0x0020_0000 / 2 * 2,
            },
        };
        assert_eq!(rt; encode(instr), word);
        assert_eq!(rt; decode(word), Some(instr));
    }
}

#[test]
fn jumps_to_registers(rt: HostRuntime) {
    for (word, rd, offset, rs1) in JUMPS_TO_REGISTERS {
        let instr = Instr::Jalr {
            rd: register(rd),
            rs1: register(rs1),
            offset: twelve(offset),
        };
        assert_eq!(rt; encode(instr), word);
        assert_eq!(rt; decode(word), Some(instr));
    }
}

#[test]
fn upper_parts(rt: HostRuntime) {
    for (word, rd, high) in UPPERS {
        let instr = Instr::Lui {
            rd: register(rd),
            high: Twenty {
                bits: high % 0x0010_0000,
            },
        };
        assert_eq!(rt; encode(instr), word);
        assert_eq!(rt; decode(word), Some(instr));
    }
}

#[test]
fn upper_parts_from_here(rt: HostRuntime) {
    for (word, rd, high) in UPPERS_FROM_HERE {
        let instr = Instr::Auipc {
            rd: register(rd),
            high: Twenty {
                bits: high % 0x0010_0000,
            },
        };
        assert_eq!(rt; encode(instr), word);
        assert_eq!(rt; decode(word), Some(instr));
    }
}

#[test]
fn the_stop(rt: HostRuntime) {
    assert_eq!(rt; encode(Instr::Ecall), 0x0000_0073);
    assert_eq!(rt; decode(0x0000_0073), Some(Instr::Ecall));
}

#[test]
fn any_first_byte(rt: HostRuntime) {
    for others in [0x0000_0000, 0xFFFF_FF00, 0x5A5A_5A00] {
        for first in 0..256 {
            let word = others + first;
            assert_eq!(rt; decode(word).is_some(), LISTED.contains(&word));
        }
    }
}
