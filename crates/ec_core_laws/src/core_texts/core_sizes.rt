//! What the size of lowered code rests on.
ghost use Rattle.ec_core_laws.specs.CoreSizesLaws.{ConstantsAreSmall, EachClassHasFewFields, EachNodeHasAToken};
ghost use Rattle.ec_core_laws.specs.CoreSizesLaws.{EachOperationHasFewParameters, EachValueIsCapturedOnce};

/// A class has at most 100 fields: captured names, parameters, declared fields and conditions.
pub fn each_class_has_few_fields()
    ensures { EachClassHasFewFields }
{}

/// An operation has at most 16 parameters.
pub fn each_operation_has_few_parameters()
    ensures { EachOperationHasFewParameters }
{}

/// The values of the constants are within the limits of an operation.
pub fn constants_are_small()
    ensures { ConstantsAreSmall }
{}

/// All object constructors together capture no more values than the classes capture names.
pub fn each_value_is_captured_once()
    ensures { EachValueIsCapturedOnce }
{}

/// A core of a text has no more nodes than the text has tokens.
pub fn each_node_has_a_token()
    ensures { EachNodeHasAToken }
{}
