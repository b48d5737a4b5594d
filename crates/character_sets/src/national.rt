//! What sets of seven bits have in place of thirteen characters of ASCII, as data. An overline is U+00AF and a
//! ring U+00B0; for a sign that has no code point, such as a cross of lines, the character of ASCII is kept.

/// The characters of the bytes `# $ ' @ [ \ ] ^ `` ` `` { | } ~`.
pub(crate) type Replaced = [char; 13];

// ISO 2, the international reference version
pub(crate) static INTERNATIONAL_REFERENCE: Replaced = [
    '#', '¤', '\'', '@', '[', '\\', ']', '^', '`', '{', '|', '}', '¯',
];

// ISO 4, United Kingdom
pub(crate) static UNITED_KINGDOM: Replaced = [
    '£', '$', '\'', '@', '[', '\\', ']', '^', '`', '{', '|', '}', '¯',
];

// ISO 21, German
pub(crate) static GERMAN: Replaced = [
    '#', '$', '\'', '§', 'Ä', 'Ö', 'Ü', '^', '`', 'ä', 'ö', 'ü', 'ß',
];

// ISO 69, French
pub(crate) static FRENCH: Replaced = [
    '£', '$', '\'', 'à', '°', 'ç', '§', '^', 'µ', 'é', 'ù', 'è', '¨',
];

// ISO 25, French
pub(crate) static OLD_FRENCH: Replaced = [
    '£', '$', '\'', 'à', '°', 'ç', '§', '^', '`', 'é', 'ù', 'è', '¨',
];

// ISO 15, Italian
pub(crate) static ITALIAN: Replaced = [
    '£', '$', '\'', '§', '°', 'ç', 'é', '^', 'ù', 'à', 'ò', 'è', 'ì',
];

// ISO 17, Spanish
pub(crate) static SPANISH: Replaced = [
    '£', '$', '\'', '§', '¡', 'Ñ', '¿', '^', '`', '°', 'ñ', 'ç', '~',
];

// ISO 16, Portuguese
pub(crate) static PORTUGUESE: Replaced = [
    '#', '$', '\'', '§', 'Ã', 'Ç', 'Õ', '^', '`', 'ã', 'ç', 'õ', '°',
];

// ISO 10, Swedish
pub(crate) static SWEDISH: Replaced = [
    '#', '¤', '\'', '@', 'Ä', 'Ö', 'Å', '^', '`', 'ä', 'ö', 'å', '¯',
];

// ISO 11, Swedish for names
pub(crate) static SWEDISH_NAMES: Replaced = [
    '#', '¤', '\'', 'É', 'Ä', 'Ö', 'Å', 'Ü', 'é', 'ä', 'ö', 'å', 'ü',
];

// ISO 60, Norwegian and Danish
pub(crate) static NORWEGIAN_DANISH: Replaced = [
    '#', '$', '\'', '@', 'Æ', 'Ø', 'Å', '^', '`', 'æ', 'ø', 'å', '¯',
];

// ISO 61, Norwegian
pub(crate) static NORWEGIAN: Replaced = [
    '§', '$', '\'', '@', 'Æ', 'Ø', 'Å', '^', '`', 'æ', 'ø', 'å', '|',
];

// ISO 14, JIS ASCII
pub(crate) static JAPANESE: Replaced = [
    '#', '$', '\'', '@', '[', '¥', ']', '^', '`', '{', '|', '}', '¯',
];

// HP-GL set 1, of the HP 9825
pub(crate) static HP_9825: Replaced = [
    '#', '$', '\'', '@', '[', '√', ']', '↑', '`', 'π', '|', '→', '~',
];

// HP-GL set 2
pub(crate) static FRENCH_GERMAN: Replaced = [
    '£', '$', '´', '@', '[', 'ç', ']', '^', '`', '¨', '°', '¨', '~',
];

// HP-GL set 3
pub(crate) static SCANDINAVIAN: Replaced = [
    '£', '$', '\'', '@', 'Ø', 'Æ', 'ø', 'æ', '`', '¨', '°', '°', '~',
];

// HP-GL set 4
pub(crate) static SPANISH_LATIN_AMERICAN: Replaced = [
    '¿', '$', '´', '@', '[', '¡', ']', '^', '`', '˜', '˜', '˜', '˜',
];
