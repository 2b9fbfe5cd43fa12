// What is fixed for the bodies of a program: labels, and what environment symbols name.
ghost use Rattle.std.specs.Prelude.{◌≡◌, ◌+◌, [], ◌∷◌, map, IfOk, OnOk};
ghost use Rattle.rx_vars.specs.Tables.{with_new};
ghost use Rattle.rx_machine.specs.Scenes.{class_name, labels_from, symbols_from};
ghost use Rattle.rx_codes.specs.Codes.{first_names, symbols_for};

use rx_clause_tree::Clause;
use rx_flow::label;
use rx_tree::{ClassDef, OutOfMemory};
use rx_vars::Table;
use std::alloc::Global;

/// The number of the object that `.NIL` names. The native classes come behind it.
const NIL: usize = 1;

/// The symbols that each program has, without their periods.
const FIRST_NAMES: [&[u8]; 8] = [
    b"NIL",
    b"OBJECT",
    b"CLASS",
    b"STRING",
    b"ARRAY",
    b"QUEUE",
    b"DIRECTORY",
    b"MESSAGE",
];

/// The labels of a body. Their numbers tell nothing.
pub fn labels_of(alloc: Global, clauses: &[Clause]) -> Result<Table<u32>, OutOfMemory>
    ensures { IfOk result (λ labels. labels ≡ labels_from [] clauses.now) }
{
    let mut labels = Table::new(alloc);
    for clause in clauses {
        if let Some(name) = label(clause) {
            labels.add(name.bytes(), 0)?;
        }
    }
    Ok(labels)
}

// Lets the symbol of a name stand for an object, unless it does for another.
fn add_symbol(
    alloc: Global,
    symbols: &mut Table<u32>,
    number: usize,
    name: &[u8],
) -> Result<(), OutOfMemory>
    ensures { OnOk result (symbols.new ≡ with_new symbols.old (0x2E ∷ name.now) number) }
{
    if number > u32::MAX as usize {
        return Err(OutOfMemory);
    }
    let mut symbol = Vec::new(alloc);
    symbol.push(b'.')?;
    symbol.extend_from_slice(name)?;
    symbols.add(symbol.as_slice(), number as u32)
}

// Lets the symbols of these names stand for the objects from `.NIL` on.
fn add_symbols(alloc: Global, symbols: &mut Table<u32>, names: &[&[u8]]) -> Result<(), OutOfMemory>
    ensures { OnOk result (symbols.new ≡ symbols_from symbols.old 1 (map (λ name. name.now) names.now)) }
{
    for place in 0..names.len() {
        add_symbol(alloc, symbols, NIL + place, names[place])?;
    }
    Ok(())
}

// The symbols that each program has.
fn first_symbols(alloc: Global) -> Result<Table<u32>, OutOfMemory>
    ensures { IfOk result (λ symbols. symbols ≡ symbols_from [] 1 first_names) }
{
    let mut symbols = Table::new(alloc);
    add_symbols(alloc, &mut symbols, &FIRST_NAMES)?;
    Ok(symbols)
}

/// The objects that environment symbols name in a program with these classes.
pub fn symbols_of(alloc: Global, classes: &[ClassDef]) -> Result<Table<u32>, OutOfMemory>
    ensures { IfOk result (λ symbols. symbols ≡ symbols_for classes.now) }
{
    let mut symbols = first_symbols(alloc)?;
    for place in 0..classes.len() {
        let number = NIL + FIRST_NAMES.len() + place;
        add_symbol(alloc, &mut symbols, number, classes[place].name.bytes())?;
    }
    Ok(symbols)
}
