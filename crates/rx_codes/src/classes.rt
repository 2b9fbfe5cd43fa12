// The table of a program's classes.
ghost use Rattle.std.specs.Prelude.{◌≡◌, [], ◌∷◌, ◌++◌, IfOk, OnOk};

use rx_classes::ClassTable;
use rx_tree::{ClassDef, MethodDef, OutOfMemory, Text};
use sqlite_items::Items;
use std::alloc::Global;

fn share_names(alloc: Global, names: &[Text]) -> Result<Items<Text>, OutOfMemory>
    ensures { IfOk result (λ shared. shared ≡ names.now) }
{
    let mut shared = Items::new(alloc);
    for name in names {
        shared.push(name.share()?)?;
    }
    Ok(shared)
}

fn share_method(method: &MethodDef) -> Result<MethodDef, OutOfMemory>
    ensures { IfOk result (λ shared. shared ≡ method.now) }
{
    let name = method.name.share()?;
    Ok(MethodDef {
        name,
        body: method.body,
        class_side: method.class_side,
        private: method.private,
        guarded: method.guarded,
    })
}

fn share_methods(alloc: Global, methods: &[MethodDef]) -> Result<Items<MethodDef>, OutOfMemory>
    ensures { IfOk result (λ shared. shared ≡ methods.now) }
{
    let mut shared = Items::new(alloc);
    for method in methods {
        let method = share_method(method)?;
        shared.push(method)?;
    }
    Ok(shared)
}

// An equal class, or want of memory.
fn share_class(alloc: Global, class: &ClassDef) -> Result<ClassDef, OutOfMemory>
    ensures { IfOk result (λ shared. shared ≡ class.now) }
{
    let name = class.name.share()?;
    let parent = class.parent.share()?;
    let inherits = share_names(alloc, class.inherits.as_slice())?;
    let methods = share_methods(alloc, class.methods.as_slice())?;
    Ok(ClassDef {
        name,
        line: class.line,
        parent,
        mixin: class.mixin,
        inherits,
        methods,
    })
}

// Defines one more class. The classes of a package can be installed in their order, and it has no more than there are numbers: so
// want of memory is all that can be in the way.
fn define(table: &mut ClassTable, class: ClassDef) -> Result<(), OutOfMemory>
    ensures { OnOk result (table.new ≡ table.old ++ class ∷ []) }
{
    if table.count() >= ClassTable::MOST {
        return Err(OutOfMemory);
    }
    match table.define(class) {
        Ok(_) => Ok(()),
        Err(_) => Err(OutOfMemory),
    }
}

/// The table of classes that can be installed in this order, or want of memory.
pub fn class_table(alloc: Global, classes: &[ClassDef]) -> Result<ClassTable, OutOfMemory>
    ensures classes { IfOk result (λ table. table ≡ classes.now) }
{
    let mut table = ClassTable::new(alloc)?;
    for class in classes {
        let class = share_class(alloc, class)?;
        define(&mut table, class)?;
    }
    Ok(table)
}
