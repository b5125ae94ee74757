//! The conditions of classes. Nothing is done but to look at them: they have these types, so the contracts can say it.
ghost use Rattle.std.specs.Prelude.{◌<◌, ◌^◌};
ghost use Rattle.ec_generate.specs.Limits.{FewConditionsIn};

use ec_world::class::ClassRec;

/// 32 bits count the conditions of each class.
pub fn look_at_conditions(classes: &[ClassRec])
    ensures { FewConditionsIn classes.now }
{
    for class in classes {
        look_at_class(class);
    }
}

/// They count those of one class.
fn look_at_class(class: &ClassRec)
    ensures { class.now.conditions < 2 ^ 32 }
{
    let _count = class.conditions;
}
