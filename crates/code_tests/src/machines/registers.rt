// The numbers of registers.

use rv32_isa::Register;

// the constants, each with its number; x3 and x4 have none
const CONSTANTS: [(Register, u8); 30] = [
    (Register::ZERO, 0),
    (Register::RETURN_ADDRESS, 1),
    (Register::STACK_POINTER, 2),
    (Register::TEMPORARY_0, 5),
    (Register::TEMPORARY_1, 6),
    (Register::TEMPORARY_2, 7),
    (Register::SAVED_0, 8),
    (Register::SAVED_1, 9),
    (Register::ARGUMENT_0, 10),
    (Register::ARGUMENT_1, 11),
    (Register::ARGUMENT_2, 12),
    (Register::ARGUMENT_3, 13),
    (Register::ARGUMENT_4, 14),
    (Register::ARGUMENT_5, 15),
    (Register::ARGUMENT_6, 16),
    (Register::ARGUMENT_7, 17),
    (Register::SAVED_2, 18),
    (Register::SAVED_3, 19),
    (Register::SAVED_4, 20),
    (Register::SAVED_5, 21),
    (Register::SAVED_6, 22),
    (Register::SAVED_7, 23),
    (Register::SAVED_8, 24),
    (Register::SAVED_9, 25),
    (Register::SAVED_10, 26),
    (Register::SAVED_11, 27),
    (Register::TEMPORARY_3, 28),
    (Register::TEMPORARY_4, 29),
    (Register::TEMPORARY_5, 30),
    (Register::TEMPORARY_6, 31),
];

/// Whether each constant has its number.
fn are_numbered() -> bool {
    for (register, number) in CONSTANTS.iter() {
        if register.number() != *number {
            return false;
        }
    }
    true
}

#[test]
fn constants_have_the_numbers_of_the_abi(rt: HostRuntime) {
    assert!(rt; are_numbered());
}
