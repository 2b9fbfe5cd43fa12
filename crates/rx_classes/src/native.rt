// The native classes and their methods.
ghost use Rattle.std.specs.Prelude.{◌≡◌, ◌<◌, length, position, IfSome};
ghost use Rattle.std.specs.Str.{bytes_eq};
ghost use Rattle.rx_classes.specs.Classes.{native_named};
ghost use Rattle.rx_classes.specs.Natives.{is_native, native_method};

/// The class Object, above all others.
pub(crate) const OBJECT: u32 = 2;

/// The class of all class objects.
pub(crate) const CLASS: u32 = 3;

pub(crate) const STRING: u32 = 4;

const ARRAY: u32 = 5;

const QUEUE: u32 = 6;

const DIRECTORY: u32 = 7;

pub(crate) const MESSAGE: u32 = 8;

/// The first class of a package.
pub(crate) const FIRST_CLASS: u32 = 9;

/// The names of the native classes, from Object on.
pub(crate) const NATIVE_NAMES: [&[u8]; 7] = [
    b"OBJECT",
    b"CLASS",
    b"STRING",
    b"ARRAY",
    b"QUEUE",
    b"DIRECTORY",
    b"MESSAGE",
];

// The native methods: the class of each, whether it stands on the class's own side, and its name. The number of each is its
// place.
const NATIVE_METHODS: [(u32, bool, &[u8]); 88] = [
    (OBJECT, false, b"="),
    (OBJECT, false, b"=="),
    (OBJECT, false, b"\\="),
    (OBJECT, false, b"\\=="),
    (OBJECT, false, b"CLASS"),
    (OBJECT, false, b"STRING"),
    (OBJECT, false, b"HASMETHOD"),
    (OBJECT, false, b"ISA"),
    (OBJECT, false, b"START"),
    (OBJECT, false, b"INIT"),
    (CLASS, false, b"NEW"),
    (CLASS, false, b"ID"),
    (CLASS, false, b"SUPERCLASS"),
    (STRING, false, b"LENGTH"),
    (STRING, false, b"SUBSTR"),
    (STRING, false, b"LEFT"),
    (STRING, false, b"RIGHT"),
    (STRING, false, b"CENTER"),
    (STRING, false, b"STRIP"),
    (STRING, false, b"REVERSE"),
    (STRING, false, b"COPIES"),
    (STRING, false, b"DELSTR"),
    (STRING, false, b"TRANSLATE"),
    (STRING, false, b"VERIFY"),
    (STRING, false, b"COMPARE"),
    (STRING, false, b"ABBREV"),
    (STRING, false, b"UPPER"),
    (STRING, false, b"LOWER"),
    (STRING, false, b"WORD"),
    (STRING, false, b"WORDS"),
    (STRING, false, b"WORDINDEX"),
    (STRING, false, b"WORDLENGTH"),
    (STRING, false, b"SUBWORD"),
    (STRING, false, b"DELWORD"),
    (STRING, false, b"SPACE"),
    (STRING, false, b"D2X"),
    (STRING, false, b"X2D"),
    (STRING, false, b"C2X"),
    (STRING, false, b"X2C"),
    (STRING, false, b"B2X"),
    (STRING, false, b"X2B"),
    (STRING, false, b"C2D"),
    (STRING, false, b"D2C"),
    (STRING, false, b"ABS"),
    (STRING, false, b"SIGN"),
    (STRING, false, b"DATATYPE"),
    (STRING, false, b"POS"),
    (STRING, false, b"LASTPOS"),
    (STRING, false, b"COUNTSTR"),
    (STRING, false, b"WORDPOS"),
    (STRING, false, b"INSERT"),
    (STRING, false, b"OVERLAY"),
    (STRING, false, b"CHANGESTR"),
    (ARRAY, true, b"NEW"),
    (ARRAY, true, b"OF"),
    (ARRAY, false, b"AT"),
    (ARRAY, false, b"[]"),
    (ARRAY, false, b"PUT"),
    (ARRAY, false, b"[]="),
    (ARRAY, false, b"APPEND"),
    (ARRAY, false, b"REMOVE"),
    (ARRAY, false, b"HASINDEX"),
    (ARRAY, false, b"ITEMS"),
    (ARRAY, false, b"SIZE"),
    (ARRAY, false, b"MAKEARRAY"),
    (QUEUE, false, b"QUEUE"),
    (QUEUE, false, b"PUSH"),
    (QUEUE, false, b"PULL"),
    (QUEUE, false, b"PEEK"),
    (QUEUE, false, b"ITEMS"),
    (QUEUE, false, b"AT"),
    (QUEUE, false, b"[]"),
    (QUEUE, false, b"MAKEARRAY"),
    (DIRECTORY, false, b"AT"),
    (DIRECTORY, false, b"[]"),
    (DIRECTORY, false, b"PUT"),
    (DIRECTORY, false, b"[]="),
    (DIRECTORY, false, b"REMOVE"),
    (DIRECTORY, false, b"HASINDEX"),
    (DIRECTORY, false, b"ITEMS"),
    (DIRECTORY, false, b"MAKEARRAY"),
    (DIRECTORY, false, b"UNKNOWN"),
    (MESSAGE, true, b"NEW"),
    (MESSAGE, false, b"SEND"),
    (MESSAGE, false, b"START"),
    (MESSAGE, false, b"RESULT"),
    (MESSAGE, false, b"COMPLETED"),
    (MESSAGE, false, b"NOTIFY"),
];

// The place of a name in a table.
fn place_of(names: &[&[u8]], name: &[u8]) -> Option<usize>
    ensures { result ≡ position (λ other. bytes_eq name.now other.now) names.now }
{
    names.iter().position(|other| name == *other)
}

/// The number of the native class of a name.
pub(crate) fn native_named(name: &[u8]) -> Option<u32>
    ensures { result ≡ native_named name.now }
{
    let place = place_of(&NATIVE_NAMES, name)?;
    Some(place as u32 + OBJECT)
}

// The place of the method of a class, a side and a name in a table.
fn place_of_method(
    methods: &[(u32, bool, &[u8])],
    class: u32,
    class_side: bool,
    name: &[u8],
) -> Option<usize>
    ensures place { result ≡ position
        (λ m. is_native class class_side name.now (record { class = m.0; class_side = m.1; name = m.2.now })) methods.now }
    ensures within { IfSome result (λ place. place < length methods.now) }
{
    methods.iter().position(|method| method.0 == class
        && method.1 == class_side
        && method.2 == name)
}

/// The number of the native method of a class, a side and a name.
pub(crate) fn native_method(class: u32, class_side: bool, name: &[u8]) -> Option<u16>
    ensures { result ≡ native_method class class_side name.now }
{
    let place = place_of_method(&NATIVE_METHODS, class, class_side, name)?;
    Some(place as u16)
}
