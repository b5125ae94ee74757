//! An object's words, by values from outside.
use ec_objects::objects::{create_object, set_field};
use ec_stores::node::NodeStore;
use ec_world::class::ClassNo;
use ec_world::node::Kind;
use ec_world::value::Value;
use std::test::Fail;

#[test]
fn an_object_has_its_words(rt: HostRuntime) -> Result<(), Fail> {
    let mut node = NodeStore::new(rt.alloc(), Kind::Mips, 1, 16, 0)?;
    let fields = [Value::Int(-2), Value::Bool(true), Value::Nil, Value::Ref(9)];
    create_object(
        &mut node,
        rt.alloc(),
        3,
        ClassNo::Made(0),
        false,
        None,
        &fields,
    )?;
    assert_eq!(rt; node.object_word(3, 0), 0xFFFF_FFFE);
    assert_eq!(rt; node.object_word(3, 1), 1);
    assert_eq!(rt; node.object_word(3, 2), 0);
    assert_eq!(rt; node.object_word(3, 3), 1);
    assert_eq!(rt; node.free_blocks(), 0);
    set_field(&mut node, 3, 1, &Value::Ref(4))?;
    assert_eq!(rt; node.text_free(), 16);
    Ok(())
}
