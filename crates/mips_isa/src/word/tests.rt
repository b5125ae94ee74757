//! Words as an assembler spells them and a disassembler reads them.
//!
//! The tables are what GNU as spelled; of the words of one byte repeated they hold which LLVM 14 reads. Numbers stand as in
//! the assembler's text: registers by number, then numbers; a branch's is in bytes from the branch itself.

use super::*;

/// Word, operation, rd, rs, rt.
const ON_REGISTERS: [(u32, Operation, u32, u32, u32); 40] = [
    (0x0109_E021, Operation::Addu, 28, 8, 9),
    (0x012D_2023, Operation::Subu, 4, 9, 13),
    (0x02B7_F024, Operation::And, 30, 21, 23),
    (0x0149_9025, Operation::Or, 18, 10, 9),
    (0x0399_C026, Operation::Xor, 24, 28, 25),
    (0x0131_3827, Operation::Nor, 7, 9, 17),
    (0x0000_902A, Operation::Slt, 18, 0, 0),
    (0x0306_402B, Operation::Sltu, 8, 24, 6),
    (0x003B_E820, Operation::Add, 29, 1, 27),
    (0x0237_D822, Operation::Sub, 27, 17, 23),
    (0x01E2_D821, Operation::Addu, 27, 15, 2),
    (0x008F_6023, Operation::Subu, 12, 4, 15),
    (0x03A7_C824, Operation::And, 25, 29, 7),
    (0x0305_1825, Operation::Or, 3, 24, 5),
    (0x03C2_3026, Operation::Xor, 6, 30, 2),
    (0x0001_7827, Operation::Nor, 15, 0, 1),
    (0x03B1_982A, Operation::Slt, 19, 29, 17),
    (0x0148_D02B, Operation::Sltu, 26, 10, 8),
    (0x039A_A020, Operation::Add, 20, 28, 26),
    (0x0338_5022, Operation::Sub, 10, 25, 24),
    (0x03ED_1021, Operation::Addu, 2, 31, 13),
    (0x02AF_C823, Operation::Subu, 25, 21, 15),
    (0x0082_3024, Operation::And, 6, 4, 2),
    (0x038C_D825, Operation::Or, 27, 28, 12),
    (0x0198_5826, Operation::Xor, 11, 12, 24),
    (0x018E_B827, Operation::Nor, 23, 12, 14),
    (0x0095_B82A, Operation::Slt, 23, 4, 21),
    (0x03A2_182B, Operation::Sltu, 3, 29, 2),
    (0x0132_5820, Operation::Add, 11, 9, 18),
    (0x0044_F022, Operation::Sub, 30, 2, 4),
    (0x02CE_A821, Operation::Addu, 21, 22, 14),
    (0x001F_0023, Operation::Subu, 0, 0, 31),
    (0x0150_1024, Operation::And, 2, 10, 16),
    (0x000E_1025, Operation::Or, 2, 0, 14),
    (0x0162_2826, Operation::Xor, 5, 11, 2),
    (0x01BC_6027, Operation::Nor, 12, 13, 28),
    (0x01FF_902A, Operation::Slt, 18, 15, 31),
    (0x0299_B82B, Operation::Sltu, 23, 20, 25),
    (0x018B_2020, Operation::Add, 4, 12, 11),
    (0x027B_6022, Operation::Sub, 12, 19, 27),
];

/// Word, shift, rd, rt, amount.
const SHIFTS: [(u32, Shift, u32, u32, u32); 12] = [
    (0x0009_78C0, Shift::Sll, 15, 9, 3),
    (0x0007_AAC2, Shift::Srl, 21, 7, 11),
    (0x0015_F9C3, Shift::Sra, 31, 21, 7),
    (0x0019_0E00, Shift::Sll, 1, 25, 24),
    (0x0008_D202, Shift::Srl, 26, 8, 8),
    (0x000F_2603, Shift::Sra, 4, 15, 24),
    (0x0015_E000, Shift::Sll, 28, 21, 0),
    (0x0014_55C2, Shift::Srl, 10, 20, 23),
    (0x0009_6A43, Shift::Sra, 13, 9, 9),
    (0x0018_4EC0, Shift::Sll, 9, 24, 27),
    (0x0007_1D82, Shift::Srl, 3, 7, 22),
    (0x0010_00C3, Shift::Sra, 0, 16, 3),
];

/// Word, shift, rd, rt, rs.
const VARIABLE_SHIFTS: [(u32, VariableShift, u32, u32, u32); 12] = [
    (0x03B9_D004, VariableShift::Sllv, 26, 25, 29),
    (0x03C6_1806, VariableShift::Srlv, 3, 6, 30),
    (0x0040_1007, VariableShift::Srav, 2, 0, 2),
    (0x023F_6004, VariableShift::Sllv, 12, 31, 17),
    (0x0209_B806, VariableShift::Srlv, 23, 9, 16),
    (0x00AB_8807, VariableShift::Srav, 17, 11, 5),
    (0x0325_C804, VariableShift::Sllv, 25, 5, 25),
    (0x0239_9806, VariableShift::Srlv, 19, 25, 17),
    (0x007E_B007, VariableShift::Srav, 22, 30, 3),
    (0x0037_F004, VariableShift::Sllv, 30, 23, 1),
    (0x00C1_F806, VariableShift::Srlv, 31, 1, 6),
    (0x02B5_D807, VariableShift::Srav, 27, 21, 21),
];

/// Word, operation, rs, rt.
const ON_HI_AND_LO: [(u32, HiLoOperation, u32, u32); 16] = [
    (0x0201_0018, HiLoOperation::Mult, 16, 1),
    (0x03B9_0019, HiLoOperation::Multu, 29, 25),
    (0x01D9_001A, HiLoOperation::Div, 14, 25),
    (0x000F_001B, HiLoOperation::Divu, 0, 15),
    (0x0198_0018, HiLoOperation::Mult, 12, 24),
    (0x03CE_0019, HiLoOperation::Multu, 30, 14),
    (0x0222_001A, HiLoOperation::Div, 17, 2),
    (0x014E_001B, HiLoOperation::Divu, 10, 14),
    (0x02E2_0018, HiLoOperation::Mult, 23, 2),
    (0x0034_0019, HiLoOperation::Multu, 1, 20),
    (0x034A_001A, HiLoOperation::Div, 26, 10),
    (0x005B_001B, HiLoOperation::Divu, 2, 27),
    (0x02E0_0018, HiLoOperation::Mult, 23, 0),
    (0x027C_0019, HiLoOperation::Multu, 19, 28),
    (0x03EA_001A, HiLoOperation::Div, 31, 10),
    (0x0121_001B, HiLoOperation::Divu, 9, 1),
];

/// Word, which is read, rd.
const READS: [(u32, MoveFrom, u32); 8] = [
    (0x0000_D810, MoveFrom::Mfhi, 27),
    (0x0000_5012, MoveFrom::Mflo, 10),
    (0x0000_D010, MoveFrom::Mfhi, 26),
    (0x0000_8812, MoveFrom::Mflo, 17),
    (0x0000_5810, MoveFrom::Mfhi, 11),
    (0x0000_6012, MoveFrom::Mflo, 12),
    (0x0000_B810, MoveFrom::Mfhi, 23),
    (0x0000_D812, MoveFrom::Mflo, 27),
];

/// Word, which is set, rs.
const WRITES: [(u32, MoveTo, u32); 8] = [
    (0x0160_0011, MoveTo::Mthi, 11),
    (0x02A0_0013, MoveTo::Mtlo, 21),
    (0x0340_0011, MoveTo::Mthi, 26),
    (0x0320_0013, MoveTo::Mtlo, 25),
    (0x01C0_0011, MoveTo::Mthi, 14),
    (0x00E0_0013, MoveTo::Mtlo, 7),
    (0x02A0_0011, MoveTo::Mthi, 21),
    (0x03E0_0013, MoveTo::Mtlo, 31),
];

/// JR: word, rs.
const JUMPS_TO_REGISTERS: [(u32, u32); 4] = [
    (0x01E0_0008, 15),
    (0x0220_0008, 17),
    (0x0100_0008, 8),
    (0x0280_0008, 20),
];

/// JALR: word, rd, rs.
const LINKS: [(u32, u32, u32); 4] = [
    (0x0140_2009, 4, 10),
    (0x00C0_F809, 31, 6),
    (0x0220_3809, 7, 17),
    (0x0240_3809, 7, 18),
];

/// J: word, target in bytes.
const JUMPS: [(u32, u32); 4] = [
    (0x082C_2E91, 0x00B0_BA44),
    (0x0820_8130, 0x0082_04C0),
    (0x0AE3_F4A2, 0x0B8F_D288),
    (0x0A7C_5DA3, 0x09F1_768C),
];

/// JAL: word, target in bytes.
const CALLS: [(u32, u32); 4] = [
    (0x0DBC_22A8, 0x06F0_8AA0),
    (0x0FA1_A66D, 0x0E86_99B4),
    (0x0FA6_2395, 0x0E98_8E54),
    (0x0CB1_02A7, 0x02C4_0A9C),
];

/// Word, branch, rs, rt, how far.
const BRANCHES: [(u32, Branch, u32, u32, i32); 8] = [
    (0x1024_73FB, Branch::Beq, 1, 4, 118768),
    (0x157D_471C, Branch::Bne, 11, 29, 72820),
    (0x11B9_A21D, Branch::Beq, 13, 25, -96136),
    (0x15B8_2C2C, Branch::Bne, 13, 24, 45236),
    (0x1073_4C92, Branch::Beq, 3, 19, 78412),
    (0x15A4_0FFA, Branch::Bne, 13, 4, 16364),
    (0x104F_2436, Branch::Beq, 2, 15, 37084),
    (0x15CF_3990, Branch::Bne, 14, 15, 58948),
];

/// Word, branch, rs, how far.
const ZERO_BRANCHES: [(u32, ZeroBranch, u32, i32); 16] = [
    (0x1B00_2DCE, ZeroBranch::Blez, 24, 46908),
    (0x1E40_6DFE, ZeroBranch::Bgtz, 18, 112636),
    (0x0520_AA7E, ZeroBranch::Bltz, 9, -87556),
    (0x04C1_755F, ZeroBranch::Bgez, 6, 120192),
    (0x1900_535A, ZeroBranch::Blez, 8, 85356),
    (0x1E00_3C9D, ZeroBranch::Bgtz, 16, 62072),
    (0x0400_3ABA, ZeroBranch::Bltz, 0, 60140),
    (0x04E1_5200, ZeroBranch::Bgez, 7, 83972),
    (0x1A80_D9F3, ZeroBranch::Blez, 20, -38960),
    (0x1E40_5EFF, ZeroBranch::Bgtz, 18, 97280),
    (0x0500_8C05, ZeroBranch::Bltz, 8, -118760),
    (0x0781_5369, ZeroBranch::Bgez, 28, 85416),
    (0x1B20_E41C, ZeroBranch::Blez, 25, -28556),
    (0x1DA0_2232, ZeroBranch::Bgtz, 13, 35020),
    (0x0520_3B56, ZeroBranch::Bltz, 9, 60764),
    (0x0661_4169, ZeroBranch::Bgez, 19, 66984),
];

/// Word, operation, rt, rs, number.
const ON_IMMEDIATES: [(u32, Immediate, u32, u32, i32); 29] = [
    (0x2107_8000, Immediate::Addi, 7, 8, -32768),
    (0x26D1_72A4, Immediate::Addiu, 17, 22, 29348),
    (0x29EF_8000, Immediate::Slti, 15, 15, -32768),
    (0x2D56_0000, Immediate::Sltiu, 22, 10, 0),
    (0x3374_FFFF, Immediate::Andi, 20, 27, 65535),
    (0x3763_8000, Immediate::Ori, 3, 27, 32768),
    (0x3A56_8000, Immediate::Xori, 22, 18, 32768),
    (0x22B7_FFFF, Immediate::Addi, 23, 21, -1),
    (0x2610_7FFF, Immediate::Addiu, 16, 16, 32767),
    (0x2BB1_0001, Immediate::Slti, 17, 29, 1),
    (0x2E08_0001, Immediate::Sltiu, 8, 16, 1),
    (0x3184_0001, Immediate::Andi, 4, 12, 1),
    (0x37A8_0001, Immediate::Ori, 8, 29, 1),
    (0x3885_0000, Immediate::Xori, 5, 4, 0),
    (0x203E_FFFF, Immediate::Addi, 30, 1, -1),
    (0x2534_0000, Immediate::Addiu, 20, 9, 0),
    (0x2B57_8000, Immediate::Slti, 23, 26, -32768),
    (0x2CE1_8000, Immediate::Sltiu, 1, 7, -32768),
    (0x30C0_FFFF, Immediate::Andi, 0, 6, 65535),
    (0x3457_BD85, Immediate::Ori, 23, 2, 48517),
    (0x3BE4_2AE2, Immediate::Xori, 4, 31, 10978),
    (0x2344_E3FD, Immediate::Addi, 4, 26, -7171),
    (0x27DF_8000, Immediate::Addiu, 31, 30, -32768),
    (0x295E_095A, Immediate::Slti, 30, 10, 2394),
    (0x2F33_FFFF, Immediate::Sltiu, 19, 25, -1),
    (0x3013_8000, Immediate::Andi, 19, 0, 32768),
    (0x36DD_76DB, Immediate::Ori, 29, 22, 30427),
    (0x39BC_FFFF, Immediate::Xori, 28, 13, 65535),
    (0x2408_FFFF, Immediate::Addiu, 8, 0, -1),
];

/// LUI: word, rt, number.
const UPPERS: [(u32, u32, u32); 4] = [
    (0x3C0B_C059, 11, 49241),
    (0x3C08_5F90, 8, 24464),
    (0x3C1D_0000, 29, 0),
    (0x3C11_0000, 17, 0),
];

/// Word, load, rt, offset, rs.
const LOADS: [(u32, Load, u32, i32, u32); 21] = [
    (0x8301_0001, Load::Lb, 1, 1, 24),
    (0x85CB_4B63, Load::Lh, 11, 19299, 14),
    (0x8EA6_FFFF, Load::Lw, 6, -1, 21),
    (0x93CF_6C30, Load::Lbu, 15, 27696, 30),
    (0x9597_7C39, Load::Lhu, 23, 31801, 12),
    (0x8328_0001, Load::Lb, 8, 1, 25),
    (0x8676_0001, Load::Lh, 22, 1, 19),
    (0x8E49_7FFF, Load::Lw, 9, 32767, 18),
    (0x93A5_0001, Load::Lbu, 5, 1, 29),
    (0x94C1_8000, Load::Lhu, 1, -32768, 6),
    (0x8346_FFFF, Load::Lb, 6, -1, 26),
    (0x86F7_FFFF, Load::Lh, 23, -1, 23),
    (0x8DE2_A07E, Load::Lw, 2, -24450, 15),
    (0x9250_8000, Load::Lbu, 16, -32768, 18),
    (0x9545_A65B, Load::Lhu, 5, -22949, 10),
    (0x8293_0000, Load::Lb, 19, 0, 20),
    (0x8475_8000, Load::Lh, 21, -32768, 3),
    (0x8CED_FFFF, Load::Lw, 13, -1, 7),
    (0x9244_C1B9, Load::Lbu, 4, -15943, 18),
    (0x943A_0001, Load::Lhu, 26, 1, 1),
    (0x8FA8_0004, Load::Lw, 8, 4, 29),
];

/// Word, store, rt, offset, rs.
const STORES: [(u32, Store, u32, i32, u32); 12] = [
    (0xA0FB_7FFF, Store::Sb, 27, 32767, 7),
    (0xA53F_0001, Store::Sh, 31, 1, 9),
    (0xACC0_7FFF, Store::Sw, 0, 32767, 6),
    (0xA077_FFFF, Store::Sb, 23, -1, 3),
    (0xA503_0001, Store::Sh, 3, 1, 8),
    (0xADE6_7FFF, Store::Sw, 6, 32767, 15),
    (0xA111_0000, Store::Sb, 17, 0, 8),
    (0xA5B2_0001, Store::Sh, 18, 1, 13),
    (0xAFC6_0DE3, Store::Sw, 6, 3555, 30),
    (0xA24B_FFFF, Store::Sb, 11, -1, 18),
    (0xA7B8_8000, Store::Sh, 24, -32768, 29),
    (0xADC4_7FFF, Store::Sw, 4, 32767, 14),
];

/// Of the words with any first byte and with three bytes alike behind it, those that are listed: those bytes, and from which
/// first byte to which. LLVM 14 reads these, and beside them only LWL, LWR, SWL, SWR and the rows of coprocessors.
const LISTED: [(u32, u32, u32); 18] = [
    (0x0000_0000, 0x00, 0x00),
    (0x0000_0000, 0x04, 0x3C),
    (0x0000_0000, 0x80, 0x87),
    (0x0000_0000, 0x8C, 0x97),
    (0x0000_0000, 0xA0, 0xA7),
    (0x0000_0000, 0xAC, 0xAF),
    (0x00FF_FFFF, 0x08, 0x17),
    (0x00FF_FFFF, 0x20, 0x3B),
    (0x00FF_FFFF, 0x80, 0x87),
    (0x00FF_FFFF, 0x8C, 0x97),
    (0x00FF_FFFF, 0xA0, 0xA7),
    (0x00FF_FFFF, 0xAC, 0xAF),
    (0x005A_5A5A, 0x08, 0x17),
    (0x005A_5A5A, 0x20, 0x3B),
    (0x005A_5A5A, 0x80, 0x87),
    (0x005A_5A5A, 0x8C, 0x97),
    (0x005A_5A5A, 0xA0, 0xA7),
    (0x005A_5A5A, 0xAC, 0xAF),
];

fn register(number: u32) -> Register {
    Register {
        number: number % 32,
    }
}

fn sixteen(number: i32) -> Sixteen {
    Sixteen {
        bits: number.cast_unsigned() % 0x1_0000,
    }
}

// The offset of a branch so many bytes on: it counts words from the slot.
fn branch_offset(far: i32) -> Sixteen {
    Sixteen {
        bits: far.cast_unsigned().wrapping_sub(4) / 4 % 0x1_0000,
    }
}

fn target(bytes: u32) -> Target {
    Target {
        words: bytes / 4 % 0x0400_0000,
    }
}

#[test]
fn operations(rt: HostRuntime) {
    for (word, operation, rd, rs, b) in ON_REGISTERS {
        let instr = Instr::OnRegisters {
            operation,
            rd: register(rd),
            rs: register(rs),
            rt: register(b),
        };
        assert_eq!(rt; encode(instr), word);
        assert_eq!(rt; decode(word), Some(instr));
    }
    for (word, operation, rs, b) in ON_HI_AND_LO {
        let instr = Instr::OnHiLo {
            operation,
            rs: register(rs),
            rt: register(b),
        };
        assert_eq!(rt; encode(instr), word);
        assert_eq!(rt; decode(word), Some(instr));
    }
    for (word, operation, b, rs, number) in ON_IMMEDIATES {
        let instr = Instr::OnImmediate {
            operation,
            rt: register(b),
            rs: register(rs),
            number: sixteen(number),
        };
        assert_eq!(rt; encode(instr), word);
        assert_eq!(rt; decode(word), Some(instr));
    }
}

#[test]
fn shifts(rt: HostRuntime) {
    for (word, shift, rd, b, amount) in SHIFTS {
        let instr = Instr::OnShift {
            shift,
            rd: register(rd),
            rt: register(b),
            amount: Amount { bits: amount % 32 },
        };
        assert_eq!(rt; encode(instr), word);
        assert_eq!(rt; decode(word), Some(instr));
    }
    for (word, shift, rd, b, rs) in VARIABLE_SHIFTS {
        let instr = Instr::OnVariableShift {
            shift,
            rd: register(rd),
            rt: register(b),
            rs: register(rs),
        };
        assert_eq!(rt; encode(instr), word);
        assert_eq!(rt; decode(word), Some(instr));
    }
}

#[test]
fn moves(rt: HostRuntime) {
    for (word, from, rd) in READS {
        let instr = Instr::ReadHiLo {
            from,
            rd: register(rd),
        };
        assert_eq!(rt; encode(instr), word);
        assert_eq!(rt; decode(word), Some(instr));
    }
    for (word, to, rs) in WRITES {
        let instr = Instr::WriteHiLo {
            to,
            rs: register(rs),
        };
        assert_eq!(rt; encode(instr), word);
        assert_eq!(rt; decode(word), Some(instr));
    }
    for (word, b, number) in UPPERS {
        let instr = Instr::Lui {
            rt: register(b),
            number: Sixteen {
                bits: number % 0x1_0000,
            },
        };
        assert_eq!(rt; encode(instr), word);
        assert_eq!(rt; decode(word), Some(instr));
    }
}

#[test]
fn jumps(rt: HostRuntime) {
    for (word, rs) in JUMPS_TO_REGISTERS {
        let instr = Instr::Jr { rs: register(rs) };
        assert_eq!(rt; encode(instr), word);
        assert_eq!(rt; decode(word), Some(instr));
    }
    for (word, bytes) in JUMPS {
        let instr = Instr::J {
            target: target(bytes),
        };
        assert_eq!(rt; encode(instr), word);
        assert_eq!(rt; decode(word), Some(instr));
    }
    for (word, bytes) in CALLS {
        let instr = Instr::Jal {
            target: target(bytes),
        };
        assert_eq!(rt; encode(instr), word);
        assert_eq!(rt; decode(word), Some(instr));
    }
}

#[test]
fn links(rt: HostRuntime) {
    for (word, rd, rs) in LINKS {
        let (rd, rs) = (register(rd), register(rs));
        assert!(rt; rd.number != rs.number);
        if rd.number != rs.number {
            let instr = Instr::Jalr {
                link: Link { rd, rs },
            };
            assert_eq!(rt; encode(instr), word);
            assert_eq!(rt; decode(word), Some(instr));
        }
    }
    // jalr $9, $9
    assert_eq!(rt; decode(0x0120_4809), None);
}

#[test]
fn branches(rt: HostRuntime) {
    for (word, branch, rs, b, far) in BRANCHES {
        let instr = Instr::BranchIf {
            branch,
            rs: register(rs),
            rt: register(b),
            offset: branch_offset(far),
        };
        assert_eq!(rt; encode(instr), word);
        assert_eq!(rt; decode(word), Some(instr));
    }
    for (word, branch, rs, far) in ZERO_BRANCHES {
        let instr = Instr::BranchOnZero {
            branch,
            rs: register(rs),
            offset: branch_offset(far),
        };
        assert_eq!(rt; encode(instr), word);
        assert_eq!(rt; decode(word), Some(instr));
    }
}

#[test]
fn accesses(rt: HostRuntime) {
    for (word, load, b, offset, rs) in LOADS {
        let instr = Instr::LoadFrom {
            load,
            rt: register(b),
            rs: register(rs),
            offset: sixteen(offset),
        };
        assert_eq!(rt; encode(instr), word);
        assert_eq!(rt; decode(word), Some(instr));
    }
    for (word, store, b, offset, rs) in STORES {
        let instr = Instr::StoreTo {
            store,
            rt: register(b),
            rs: register(rs),
            offset: sixteen(offset),
        };
        assert_eq!(rt; encode(instr), word);
        assert_eq!(rt; decode(word), Some(instr));
    }
}

#[test]
fn the_stop(rt: HostRuntime) {
    assert_eq!(rt; encode(Instr::Syscall), 0x0000_000C);
    assert_eq!(rt; decode(0x0000_000C), Some(Instr::Syscall));
    // syscall 1, and break
    assert_eq!(rt; decode(0x0000_004C), None);
    assert_eq!(rt; decode(0x0000_000D), None);
}

fn is_listed(others: u32, first: u32) -> bool {
    for (listed, from, to) in LISTED {
        if listed == others && from <= first && first <= to {
            return true;
        }
    }
    false
}

#[test]
fn any_first_byte(rt: HostRuntime) {
    for others in [0x0000_0000, 0x00FF_FFFF, 0x005A_5A5A] {
        for first in 0..256 {
            let word = (first << 24) + others;
            assert_eq!(rt; decode(word).is_some(), is_listed(others, first));
        }
    }
}
