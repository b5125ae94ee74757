//! The numbers of vector types in parcels, where the text writes them in another order than the code makes vectors of them.
use ec_base::list::Seq;
use ec_code::code::{Line, Op, Operation, Parts, StopRow};
use ec_parcels::class_numbers::numbers::class_numbers;
use ec_world::class::{ClassNo, PlainType, VectorType};
use ec_world::stop::Stop;
use std::alloc::{AllocError, Global};
use std::mem::ManuallyDrop;
use std::test::Fail;

const INTEGERS: VectorType = VectorType {
    inner: 0,
    of: PlainType::Integer,
};

const STRINGS: VectorType = VectorType {
    inner: 0,
    of: PlainType::Bytes,
};

const BOOLEANS: VectorType = VectorType {
    inner: 0,
    of: PlainType::Boolean,
};

/// A line that makes a vector of this type.
fn making(alloc: Global, of: VectorType) -> Line {
    Line {
        op: Op::Rest(StopRow {
            stop: Stop::NewVector { of, line: 1 },
            on_itself: false,
            operands: Seq::new(alloc),
            gives: None,
            into: None,
        }),
        live: Seq::new(alloc),
    }
}

/// A program without classes whose code makes a vector of integers, and then one of strings.
fn program(alloc: Global) -> Result<Parts, AllocError> {
    let mut code = Seq::new(alloc);
    code.push(making(alloc, INTEGERS))?;
    code.push(making(alloc, STRINGS))?;
    let mut operations = Seq::new(alloc);
    operations.push(Operation {
        class: ClassNo::Program,
        parameters: Seq::new(alloc),
        result: None,
        is_lowest: true,
        variables: Seq::new(alloc),
        code,
    })?;
    Ok(Parts {
        classes: Seq::new(alloc),
        constants: Seq::new(alloc),
        literals: Seq::new(alloc),
        operations,
    })
}

#[test]
fn written_vector_types_have_the_first_numbers(rt: HostRuntime) -> Result<(), Fail> {
    let alloc = rt.alloc();
    let parts = ManuallyDrop::new(program(alloc)?);
    let written = [STRINGS, BOOLEANS, STRINGS];
    let numbers = ManuallyDrop::new(class_numbers(alloc, &parts, &written)?);
    assert!(rt; numbers.number_of(ClassNo::Vector(STRINGS)) == Some(0));
    assert!(rt; numbers.number_of(ClassNo::Vector(BOOLEANS)) == Some(1));
    assert!(rt; numbers.number_of(ClassNo::Vector(INTEGERS)) == Some(2));
    Ok(())
}
