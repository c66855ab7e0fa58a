// The tables: an entry of every kind and its row, conditions just kept and just broken, and entries that are refused.
// The rows were written by a program that knows the bank's tables and nothing of this engine.
use records::Value;

// An entry, and the row that it is printed as in row 4 of a file, with owner 3, total 10^17 - 1 and count 123456.
#[derive(Clone, Copy)]
pub struct Printed {
    pub mark: u8,
    pub values: &'static [Value],
    pub pool: &'static [u8],
    pub row: &'static [u8; 750],
}

// Bytes to put into a row from a position on.
#[derive(Clone, Copy)]
pub struct Change(pub usize, pub &'static [u8]);

// What a refusal tells: its number and its two values.
#[derive(Clone, Copy)]
pub struct Told {
    pub number: u8,
    pub first: usize,
    pub second: usize,
}

// A printed row of the same book, by its place in the table, with changes, as row 4; and what it is refused with, if it is.
#[derive(Clone, Copy)]
pub struct Judged {
    pub base: usize,
    pub changes: &'static [Change],
    pub told: Option<Told>,
}

// An entry, its row number, and what it is refused with.
#[derive(Clone, Copy)]
pub struct Refused {
    pub mark: u8,
    pub values: &'static [Value],
    pub pool: &'static [u8],
    pub row_number: u64,
    pub told: Told,
}

#[rattlefmt::skip]
pub static PRINTED_OUTGOING: [Printed; 4] = [
    Printed { mark: b'0', values: &[Value::Text { place: 0, length: 7 }, Value::Number(1), Value::Number(37001), Value::Text { place: 7, length: 3 }, Value::Text { place: 10, length: 7 }, Value::Text { place: 17, length: 4 }, Value::Text { place: 21, length: 7 }, Value::Number(20240229), Value::Text { place: 28, length: 8 }, Value::Text { place: 36, length: 8 }], pool: b"TEXT 27A51TEXT 55CACCTEXT 79TEXT 164TEXT 194", row: b"01REMESSA02PIX            TEXT 27 0100000000037001A51 TEXT 55             CACCTEXT 79                                                                      20240229TEXT 164                      TEXT 194                                                                                                                                                                                                                                                                                                                                                                                                                                                                                                                                                            001000004" },
    Printed { mark: b'1', values: &[Value::Number(1), Value::Number(4001), Value::Number(8001), Value::Text { place: 0, length: 20 }, Value::Text { place: 20, length: 4 }, Value::Text { place: 24, length: 21 }, Value::Number(2), Value::Number(1), Value::Text { place: 45, length: 18 }, Value::Number(161001), Value::Number(20240229), Value::Text { place: 63, length: 1 }, Value::Number(125000), Value::Number(125000), Value::Number(21900), Value::Number(23600), Value::Text { place: 64, length: 1 }, Value::Number(1), Value::Number(12345678901), Value::Text { place: 65, length: 14 }, Value::Text { place: 79, length: 20 }, Value::Text { place: 99, length: 1 }, Value::Text { place: 100, length: 8 }], pool: b"00000000000000000029CACCrecebedor@example.comPEDIDO 2024-000123SSMARIA DA SILVAObrigado pela compraSTEXT 551", row: b"10100000000004001800100000000000000000029CACCrecebedor@example.com                                                        201PEDIDO 2024-000123                 00000000016100120240229S00000000000125000000000000001250000000000000002190000000000000023600S0100012345678901MARIA DA SILVA                                                                                                                              Obrigado pela compra                                                                                                                        STEXT 551                                                                                                                                                                                          000004" },
    Printed { mark: b'2', values: &[Value::Text { place: 0, length: 18 }, Value::Text { place: 18, length: 7 }, Value::Text { place: 25, length: 7 }, Value::Text { place: 32, length: 8 }, Value::Text { place: 40, length: 8 }, Value::Text { place: 48, length: 8 }], pool: b"PEDIDO 2024-000123TEXT 37TEXT 87TEXT 287TEXT 337TEXT 537", row: b"2PEDIDO 2024-000123                 TEXT 37                                           TEXT 87                                                                                                                                                                                                 TEXT 287                                          TEXT 337                                                                                                                                                                                                TEXT 537                                                                                                                                                                                                  000003000004" },
    Printed { mark: b'9', values: &[], pool: b"", row: b"9                                                                                                                                                                                                                                                                                                                                                                                                                                                                                                                                                                                                                                                                                                                                       99999999999999999000000000123456000004" },
];

#[rattlefmt::skip]
pub static PRINTED_RETURNED: [Printed; 6] = [
    Printed { mark: b'0', values: &[Value::Text { place: 0, length: 7 }, Value::Number(1), Value::Number(37001), Value::Number(1001), Value::Text { place: 7, length: 20 }, Value::Text { place: 27, length: 4 }, Value::Text { place: 31, length: 7 }, Value::Number(20240229), Value::Text { place: 38, length: 8 }, Value::Text { place: 46, length: 8 }, Value::Text { place: 54, length: 8 }], pool: b"TEXT 2700000000000000000062CACCTEXT 79TEXT 164TEXT 194TEXT 254", row: b"02RETORNO02PIX            TEXT 27 0100000000037001100100000000000000000062CACCTEXT 79                                                                      20240229TEXT 164                      TEXT 194                                                    TEXT 254                                                                                                                                                                                                                                                                                                                                                                                                                                                                                                001000004" },
    Printed { mark: b'1', values: &[Value::Text { place: 0, length: 6 }, Value::Number(1), Value::Number(12001), Value::Text { place: 6, length: 3 }, Value::Text { place: 9, length: 7 }, Value::Text { place: 16, length: 4 }, Value::Text { place: 20, length: 7 }, Value::Number(1), Value::Number(2), Value::Number(20240229), Value::Text { place: 27, length: 8 }, Value::Number(177001), Value::Number(20240229), Value::Number(20000), Value::Number(21700), Value::Number(23400), Value::Number(25100), Value::Number(26800), Value::Number(28500), Value::Number(30200), Value::Number(1), Value::Number(321001), Value::Text { place: 35, length: 8 }, Value::Number(1), Value::Number(477001), Value::Text { place: 43, length: 8 }, Value::Text { place: 51, length: 2 }, Value::Text { place: 53, length: 8 }, Value::Text { place: 61, length: 8 }], pool: b"TEXT 2A26TEXT 30CACCTEXT 54TEXT 142TEXT 335TEXT 49101TEXT 633TEXT 668", row: b"1TEXT 2  0100000000012001A26 TEXT 30             CACCTEXT 54                                                                      10220240229TEXT 142                           00000000017700120240229000000000000200000000000000002170000000000000023400000000000000251000000000000002680000000000000028500000000000000302000100000000321001TEXT 335                                                                                                                                    0100000000477001TEXT 491                                                                                                                                    01TEXT 633                           TEXT 668                                                                     000004" },
    Printed { mark: b'2', values: &[Value::Text { place: 0, length: 6 }, Value::Text { place: 6, length: 7 }, Value::Text { place: 13, length: 7 }, Value::Text { place: 20, length: 8 }, Value::Text { place: 28, length: 8 }], pool: b"TEXT 2TEXT 37TEXT 87TEXT 287TEXT 337", row: b"2TEXT 2                             TEXT 37                                           TEXT 87                                                                                                                                                                                                 TEXT 287                                          TEXT 337                                                                                                                                                                                                                                                                                                                                                                                                          000003000004" },
    Printed { mark: b'3', values: &[Value::Text { place: 0, length: 6 }, Value::Number(2), Value::Number(20240229), Value::Text { place: 6, length: 7 }, Value::Text { place: 13, length: 8 }, Value::Text { place: 21, length: 8 }], pool: b"TEXT 2TEXT 89TEXT 124TEXT 624", row: b"3TEXT 2                                                                       0220240229TEXT 89                            TEXT 124                                                                                                                                                                                                                                                                                                                                                                                                                                                                                                            TEXT 624                                                                                                                 000004" },
    Printed { mark: b'4', values: &[Value::Text { place: 0, length: 6 }, Value::Number(2), Value::Number(20240229), Value::Text { place: 6, length: 7 }, Value::Text { place: 13, length: 8 }, Value::Text { place: 21, length: 8 }], pool: b"TEXT 2TEXT 89TEXT 124TEXT 624", row: b"4TEXT 2                                                                       0220240229TEXT 89                            TEXT 124                                                                                                                                                                                                                                                                                                                                                                                                                                                                                                            TEXT 624                                                                                                                 000004" },
    Printed { mark: b'9', values: &[Value::Text { place: 0, length: 6 }, Value::Text { place: 6, length: 7 }], pool: b"TEXT 5TEXT 13", row: b"9202TEXT 5  TEXT 13                                                                                                                                                                                                                                                                                                                                                                                                                                                                                                                                                                                                                                                                                                                                      000000000123456000004" },
];

#[rattlefmt::skip]
pub static PRINTED_RECURRING: [Printed; 3] = [
    Printed { mark: b'0', values: &[Value::Text { place: 0, length: 7 }, Value::Number(2), Value::Number(37001), Value::Number(1001), Value::Text { place: 7, length: 20 }, Value::Text { place: 27, length: 4 }, Value::Text { place: 31, length: 7 }, Value::Number(20240229), Value::Text { place: 38, length: 8 }, Value::Text { place: 46, length: 8 }, Value::Text { place: 54, length: 8 }, Value::Number(732001)], pool: b"TEXT 2700000000000000000062CACCTEXT 79TEXT 164TEXT 194TEXT 254", row: b"01REMESSA02PIX            TEXT 27 0200000000037001100100000000000000000062CACCTEXT 79                                                                      20240229TEXT 164                      TEXT 194                                                    TEXT 254                                                                                                                                                                                                                                                                                                                                                                                                                                                                                      00007320013CX000004" },
    Printed { mark: b'A', values: &[Value::Number(1), Value::Number(1), Value::Number(1), Value::Number(7001), Value::Text { place: 0, length: 7 }, Value::Text { place: 7, length: 8 }, Value::Text { place: 15, length: 8 }, Value::Text { place: 23, length: 8 }, Value::Number(1), Value::Number(1), Value::Number(20250115), Value::Number(20251231), Value::Number(1), Value::Number(9990), Value::Number(1), Value::Number(1000), Value::Number(1), Value::Text { place: 31, length: 8 }, Value::Text { place: 39, length: 8 }, Value::Text { place: 47, length: 8 }], pool: b"TEXT 21TEXT 161TEXT 196TEXT 231TEXT 321TEXT 350TEXT 427", row: b"A0110100000000007001TEXT 21                                                                                                                                     TEXT 161                           TEXT 196                           TEXT 231                           1120250115202512311000000000000099901000000000000010001TEXT 321                     TEXT 350                                                                     TEXT 427                                                                                                                                                                                                                                                                                                                      000004" },
    Printed { mark: b'9', values: &[], pool: b"", row: b"9                                                                                                                                                                                                                                                                                                                                                                                                                                                                                                                                                                                                                                                                                                                                       99999999999999999000000000123456000004" },
];

#[rattlefmt::skip]
pub static JUDGED_OUTGOING: [Judged; 42] = [
    // Every kind, and a mark that no book has; in the book of recurrences a 1 is no mark either.
    Judged { base: 0, changes: &[], told: None },
    Judged { base: 1, changes: &[], told: None },
    Judged { base: 2, changes: &[], told: None },
    Judged { base: 3, changes: &[], told: None },
    Judged { base: 0, changes: &[Change(1, b"X")], told: Some(Told { number: 10, first: 4, second: 1 }) },
    Judged { base: 1, changes: &[Change(1, b"X")], told: Some(Told { number: 10, first: 4, second: 1 }) },
    Judged { base: 2, changes: &[Change(1, b"X")], told: Some(Told { number: 10, first: 4, second: 1 }) },
    Judged { base: 3, changes: &[Change(1, b"X")], told: Some(Told { number: 10, first: 4, second: 1 }) },
    Judged { base: 0, changes: &[Change(1, b"3")], told: Some(Told { number: 10, first: 4, second: 1 }) },
    // Charges: a dynamic one has an identifier.
    Judged { base: 1, changes: &[Change(126, b"X                                  ")], told: None },
    Judged { base: 1, changes: &[Change(126, b"                                   ")], told: Some(Told { number: 15, first: 4, second: 126 }) },
    // It has an original value.
    Judged { base: 1, changes: &[Change(185, b"00000000000000001"), Change(202, b"00000000000000000"), Change(219, b"00000000000000000"), Change(236, b"00000000000000000")], told: None },
    Judged { base: 1, changes: &[Change(185, b"00000000000000000"), Change(202, b"00000000000000000"), Change(219, b"00000000000000000"), Change(236, b"00000000000000000")], told: Some(Told { number: 15, first: 4, second: 185 }) },
    // Only dynamic charges are deleted.
    Judged { base: 1, changes: &[Change(124, b"02")], told: None },
    Judged { base: 1, changes: &[Change(123, b"1"), Change(124, b"02")], told: Some(Told { number: 15, first: 4, second: 124 }) },
    Judged { base: 1, changes: &[Change(123, b"1"), Change(124, b"01")], told: None },
    // Only dynamic charges are changed.
    Judged { base: 1, changes: &[Change(124, b"04")], told: None },
    Judged { base: 1, changes: &[Change(123, b"1"), Change(124, b"04")], told: Some(Told { number: 15, first: 4, second: 124 }) },
    // Interest, fine and discount are each at most the original value.
    Judged { base: 1, changes: &[Change(202, b"00000000000125000")], told: None },
    Judged { base: 1, changes: &[Change(202, b"00000000000125001")], told: Some(Told { number: 15, first: 4, second: 202 }) },
    Judged { base: 1, changes: &[Change(219, b"00000000000125000")], told: None },
    Judged { base: 1, changes: &[Change(219, b"00000000000125001")], told: Some(Told { number: 15, first: 4, second: 219 }) },
    Judged { base: 1, changes: &[Change(236, b"00000000000125000")], told: None },
    Judged { base: 1, changes: &[Change(236, b"00000000000125001")], told: Some(Told { number: 15, first: 4, second: 236 }) },
    // A debtor with a number has a name.
    Judged { base: 1, changes: &[Change(270, b"M                                                                                                                                           ")], told: None },
    Judged { base: 1, changes: &[Change(270, b"                                                                                                                                            ")], told: Some(Told { number: 15, first: 4, second: 270 }) },
    Judged { base: 1, changes: &[Change(256, b"00000000000000"), Change(270, b"                                                                                                                                            ")], told: None },
    // A static charge has an identifier of at most 25 bytes, inner blanks counted.
    Judged { base: 1, changes: &[Change(123, b"1"), Change(126, b"IIIIIIIIIII   JJJJJJJJJJJ          ")], told: None },
    Judged { base: 1, changes: &[Change(123, b"1"), Change(126, b"IIIIIIIIIII    JJJJJJJJJJJ         ")], told: Some(Told { number: 15, first: 4, second: 126 }) },
    Judged { base: 1, changes: &[Change(126, b"IIIIIIIIIIIIIIIIIIIIIIIIII         ")], told: None },
    // Its key and its free text have at most 77 bytes together.
    Judged { base: 1, changes: &[Change(123, b"1"), Change(46, b"kkkkkkkkk                                                                    "), Change(410, b"tttttttttttttttttttttttttttttttttttttttttttttttttttttttttttttttttttt                                                                        ")], told: None },
    Judged { base: 1, changes: &[Change(123, b"1"), Change(46, b"kkkkkkkkk                                                                    "), Change(410, b"ttttttttttttttttttttttttttttttttttttttttttttttttttttttttttttttttttttt                                                                       ")], told: Some(Told { number: 15, first: 4, second: 410 }) },
    Judged { base: 1, changes: &[Change(46, b"kkkkkkkkk                                                                    "), Change(410, b"ttttttttttttttttttttttttttttttttttttttttttttttttttttttttttttttttttttt                                                                       ")], told: None },
    // The first broken condition counts, and a field before any condition.
    Judged { base: 1, changes: &[Change(185, b"00000000000000000")], told: Some(Told { number: 15, first: 4, second: 185 }) },
    Judged { base: 1, changes: &[Change(126, b"                                   "), Change(185, b"00000000000000000")], told: Some(Told { number: 15, first: 4, second: 126 }) },
    Judged { base: 1, changes: &[Change(126, b"                                   "), Change(611, b"X")], told: Some(Told { number: 14, first: 4, second: 611 }) },
    Judged { base: 1, changes: &[Change(1, b"X"), Change(126, b"                                   "), Change(611, b"X")], told: Some(Told { number: 10, first: 4, second: 1 }) },
    // Faults of fields keep their number and position: a byte, an empty field, a wrong one, a constant.
    Judged { base: 0, changes: &[Change(30, b"\x00")], told: Some(Told { number: 11, first: 4, second: 30 }) },
    Judged { base: 0, changes: &[Change(37, b"00000000000000")], told: Some(Told { number: 12, first: 4, second: 37 }) },
    Judged { base: 0, changes: &[Change(35, b"03")], told: Some(Told { number: 13, first: 4, second: 35 }) },
    Judged { base: 0, changes: &[Change(743, b"1")], told: Some(Told { number: 14, first: 4, second: 743 }) },
    Judged { base: 3, changes: &[Change(713, b"/")], told: Some(Told { number: 11, first: 4, second: 713 }) },
];

#[rattlefmt::skip]
pub static JUDGED_RETURNED: [Judged; 20] = [
    // Every kind, and a mark that no book has; in the book of recurrences a 1 is no mark either.
    Judged { base: 0, changes: &[], told: None },
    Judged { base: 1, changes: &[], told: None },
    Judged { base: 2, changes: &[], told: None },
    Judged { base: 3, changes: &[], told: None },
    Judged { base: 4, changes: &[], told: None },
    Judged { base: 5, changes: &[], told: None },
    Judged { base: 0, changes: &[Change(1, b"X")], told: Some(Told { number: 10, first: 4, second: 1 }) },
    Judged { base: 1, changes: &[Change(1, b"X")], told: Some(Told { number: 10, first: 4, second: 1 }) },
    Judged { base: 2, changes: &[Change(1, b"X")], told: Some(Told { number: 10, first: 4, second: 1 }) },
    Judged { base: 3, changes: &[Change(1, b"X")], told: Some(Told { number: 10, first: 4, second: 1 }) },
    Judged { base: 4, changes: &[Change(1, b"X")], told: Some(Told { number: 10, first: 4, second: 1 }) },
    Judged { base: 5, changes: &[Change(1, b"X")], told: Some(Told { number: 10, first: 4, second: 1 }) },
    Judged { base: 0, changes: &[Change(1, b"A")], told: Some(Told { number: 10, first: 4, second: 1 }) },
    // Faults of fields keep their number and position: a byte, an empty field, a wrong one, a constant.
    Judged { base: 1, changes: &[Change(285, b"x")], told: Some(Told { number: 11, first: 4, second: 285 }) },
    Judged { base: 1, changes: &[Change(142, b"                                   ")], told: Some(Told { number: 12, first: 4, second: 142 }) },
    Judged { base: 1, changes: &[Change(631, b"06")], told: Some(Told { number: 13, first: 4, second: 631 }) },
    Judged { base: 1, changes: &[Change(744, b"x")], told: Some(Told { number: 14, first: 4, second: 744 }) },
    Judged { base: 5, changes: &[Change(745, b"000000")], told: None },
    // The first field by position counts.
    Judged { base: 3, changes: &[Change(744, b"x"), Change(2, b"                                                                             "), Change(81, b"20230229")], told: Some(Told { number: 12, first: 4, second: 2 }) },
    Judged { base: 4, changes: &[Change(744, b"x"), Change(81, b"20230229")], told: Some(Told { number: 13, first: 4, second: 81 }) },
];

#[rattlefmt::skip]
pub static JUDGED_RECURRING: [Judged; 28] = [
    // Every kind, and a mark that no book has; in the book of recurrences a 1 is no mark either.
    Judged { base: 0, changes: &[], told: None },
    Judged { base: 1, changes: &[], told: None },
    Judged { base: 2, changes: &[], told: None },
    Judged { base: 0, changes: &[Change(1, b"X")], told: Some(Told { number: 10, first: 4, second: 1 }) },
    Judged { base: 1, changes: &[Change(1, b"X")], told: Some(Told { number: 10, first: 4, second: 1 }) },
    Judged { base: 2, changes: &[Change(1, b"X")], told: Some(Told { number: 10, first: 4, second: 1 }) },
    Judged { base: 1, changes: &[Change(1, b"1")], told: Some(Told { number: 10, first: 4, second: 1 }) },
    // Recurrences: one that is cancelled or changed has an identifier.
    Judged { base: 1, changes: &[Change(2, b"02"), Change(321, b"R                            ")], told: None },
    Judged { base: 1, changes: &[Change(2, b"02"), Change(321, b"                             ")], told: Some(Told { number: 15, first: 4, second: 321 }) },
    Judged { base: 1, changes: &[Change(2, b"03"), Change(321, b"R                            ")], told: None },
    Judged { base: 1, changes: &[Change(2, b"03"), Change(321, b"                             ")], told: Some(Told { number: 15, first: 4, second: 321 }) },
    Judged { base: 1, changes: &[Change(321, b"                             ")], told: None },
    // The journey that begins with a payment has a TXID.
    Judged { base: 1, changes: &[Change(4, b"3"), Change(161, b"T                                  ")], told: None },
    Judged { base: 1, changes: &[Change(4, b"3"), Change(161, b"                                   ")], told: Some(Told { number: 15, first: 4, second: 161 }) },
    Judged { base: 1, changes: &[Change(161, b"                                   ")], told: None },
    // With an end there is a final date, and without one there is none.
    Judged { base: 1, changes: &[Change(267, b"1"), Change(276, b"29991231")], told: None },
    Judged { base: 1, changes: &[Change(267, b"1"), Change(276, b"00000000")], told: Some(Told { number: 15, first: 4, second: 276 }) },
    Judged { base: 1, changes: &[Change(267, b"2"), Change(276, b"00000000")], told: None },
    Judged { base: 1, changes: &[Change(267, b"2")], told: Some(Told { number: 15, first: 4, second: 276 }) },
    // A fixed value is not 0, nor is a minimum that there is.
    Judged { base: 1, changes: &[Change(285, b"00000000000000001")], told: None },
    Judged { base: 1, changes: &[Change(285, b"00000000000000000")], told: Some(Told { number: 15, first: 4, second: 285 }) },
    Judged { base: 1, changes: &[Change(284, b"2"), Change(285, b"00000000000000000")], told: None },
    Judged { base: 1, changes: &[Change(303, b"00000000000000001")], told: None },
    Judged { base: 1, changes: &[Change(303, b"00000000000000000")], told: Some(Told { number: 15, first: 4, second: 303 }) },
    Judged { base: 1, changes: &[Change(302, b"2"), Change(303, b"00000000000000000")], told: None },
    Judged { base: 1, changes: &[Change(276, b"00000000"), Change(285, b"00000000000000000"), Change(303, b"00000000000000000")], told: Some(Told { number: 15, first: 4, second: 276 }) },
    // Faults of fields keep their number and position: a byte, an empty field, a wrong one, a constant.
    Judged { base: 0, changes: &[Change(12, b"P I X")], told: Some(Told { number: 14, first: 4, second: 13 }) },
    Judged { base: 2, changes: &[Change(745, b"00000 ")], told: Some(Told { number: 11, first: 4, second: 750 }) },
];

#[rattlefmt::skip]
pub static REFUSED: [Refused; 22] = [
    // No such mark, whatever the values.
    Refused { mark: b'7', values: &[Value::Text { place: 0, length: 7 }, Value::Number(1), Value::Number(37001), Value::Text { place: 7, length: 3 }, Value::Text { place: 10, length: 7 }, Value::Text { place: 17, length: 4 }, Value::Text { place: 21, length: 7 }, Value::Number(20240229), Value::Text { place: 28, length: 8 }, Value::Text { place: 36, length: 8 }], pool: b"TEXT 27A51TEXT 55CACCTEXT 79TEXT 164TEXT 194", row_number: 4, told: Told { number: 10, first: 4, second: 1 } },
    Refused { mark: b'7', values: &[], pool: b"", row_number: 4, told: Told { number: 10, first: 4, second: 1 } },
    // Too few, none, too many.
    Refused { mark: b'0', values: &[Value::Text { place: 0, length: 7 }, Value::Number(1), Value::Number(37001), Value::Text { place: 7, length: 3 }, Value::Text { place: 10, length: 7 }, Value::Text { place: 17, length: 4 }, Value::Text { place: 21, length: 7 }, Value::Number(20240229), Value::Text { place: 28, length: 8 }], pool: b"TEXT 27A51TEXT 55CACCTEXT 79TEXT 164TEXT 194", row_number: 4, told: Told { number: 31, first: 10, second: 0 } },
    Refused { mark: b'0', values: &[], pool: b"", row_number: 4, told: Told { number: 31, first: 1, second: 0 } },
    Refused { mark: b'0', values: &[Value::Text { place: 0, length: 7 }, Value::Number(1), Value::Number(37001), Value::Text { place: 7, length: 3 }, Value::Text { place: 10, length: 7 }, Value::Text { place: 17, length: 4 }, Value::Text { place: 21, length: 7 }, Value::Number(20240229), Value::Text { place: 28, length: 8 }, Value::Text { place: 36, length: 8 }, Value::Number(1)], pool: b"TEXT 27A51TEXT 55CACCTEXT 79TEXT 164TEXT 194", row_number: 4, told: Told { number: 31, first: 11, second: 0 } },
    Refused { mark: b'9', values: &[Value::Number(1)], pool: b"", row_number: 4, told: Told { number: 31, first: 1, second: 0 } },
    // A wrong count before a value of another sort.
    Refused { mark: b'0', values: &[Value::Number(1), Value::Number(1), Value::Number(37001), Value::Text { place: 7, length: 3 }, Value::Text { place: 10, length: 7 }, Value::Text { place: 17, length: 4 }, Value::Text { place: 21, length: 7 }, Value::Number(20240229), Value::Text { place: 28, length: 8 }], pool: b"TEXT 27A51TEXT 55CACCTEXT 79TEXT 164TEXT 194", row_number: 4, told: Told { number: 31, first: 10, second: 0 } },
    // Another sort: the first of them.
    Refused { mark: b'0', values: &[Value::Number(1), Value::Number(1), Value::Number(37001), Value::Text { place: 7, length: 3 }, Value::Text { place: 10, length: 7 }, Value::Text { place: 17, length: 4 }, Value::Text { place: 21, length: 7 }, Value::Number(20240229), Value::Text { place: 28, length: 8 }, Value::Text { place: 36, length: 8 }], pool: b"TEXT 27A51TEXT 55CACCTEXT 79TEXT 164TEXT 194", row_number: 4, told: Told { number: 31, first: 1, second: 0 } },
    Refused { mark: b'0', values: &[Value::Text { place: 0, length: 7 }, Value::Text { place: 0, length: 0 }, Value::Number(37001), Value::Text { place: 7, length: 3 }, Value::Text { place: 10, length: 7 }, Value::Text { place: 17, length: 4 }, Value::Text { place: 21, length: 7 }, Value::Number(20240229), Value::Text { place: 28, length: 8 }, Value::Text { place: 36, length: 8 }], pool: b"TEXT 27A51TEXT 55CACCTEXT 79TEXT 164TEXT 194", row_number: 4, told: Told { number: 31, first: 2, second: 0 } },
    Refused { mark: b'0', values: &[Value::Text { place: 0, length: 7 }, Value::Number(1), Value::Number(37001), Value::Text { place: 7, length: 3 }, Value::Text { place: 10, length: 7 }, Value::Text { place: 17, length: 4 }, Value::Text { place: 21, length: 7 }, Value::Number(20240229), Value::Text { place: 28, length: 8 }, Value::Number(0)], pool: b"TEXT 27A51TEXT 55CACCTEXT 79TEXT 164TEXT 194", row_number: 4, told: Told { number: 31, first: 10, second: 0 } },
    // Past the pool by one, far past it, and past it by a sum that would wrap.
    Refused { mark: b'0', values: &[Value::Text { place: 37, length: 8 }, Value::Number(1), Value::Number(37001), Value::Text { place: 7, length: 3 }, Value::Text { place: 10, length: 7 }, Value::Text { place: 17, length: 4 }, Value::Text { place: 21, length: 7 }, Value::Number(20240229), Value::Text { place: 28, length: 8 }, Value::Text { place: 36, length: 8 }], pool: b"TEXT 27A51TEXT 55CACCTEXT 79TEXT 164TEXT 194", row_number: 4, told: Told { number: 31, first: 1, second: 0 } },
    Refused { mark: b'0', values: &[Value::Text { place: 0, length: 7 }, Value::Number(1), Value::Number(37001), Value::Text { place: 7, length: 3 }, Value::Text { place: 45, length: 0 }, Value::Text { place: 17, length: 4 }, Value::Text { place: 21, length: 7 }, Value::Number(20240229), Value::Text { place: 28, length: 8 }, Value::Text { place: 36, length: 8 }], pool: b"TEXT 27A51TEXT 55CACCTEXT 79TEXT 164TEXT 194", row_number: 4, told: Told { number: 31, first: 5, second: 0 } },
    Refused { mark: b'0', values: &[Value::Text { place: 0, length: 7 }, Value::Number(1), Value::Number(37001), Value::Text { place: 18446744073709551615, length: 1 }, Value::Text { place: 10, length: 7 }, Value::Text { place: 17, length: 4 }, Value::Text { place: 21, length: 7 }, Value::Number(20240229), Value::Text { place: 28, length: 8 }, Value::Text { place: 36, length: 8 }], pool: b"TEXT 27A51TEXT 55CACCTEXT 79TEXT 164TEXT 194", row_number: 4, told: Told { number: 31, first: 4, second: 0 } },
    Refused { mark: b'0', values: &[Value::Text { place: 0, length: 7 }, Value::Number(1), Value::Number(37001), Value::Text { place: 1, length: 18446744073709551615 }, Value::Text { place: 10, length: 7 }, Value::Text { place: 17, length: 4 }, Value::Text { place: 21, length: 7 }, Value::Number(20240229), Value::Text { place: 28, length: 8 }, Value::Text { place: 36, length: 8 }], pool: b"TEXT 27A51TEXT 55CACCTEXT 79TEXT 164TEXT 194", row_number: 4, told: Told { number: 31, first: 4, second: 0 } },
    // A value before any field.
    Refused { mark: b'0', values: &[Value::Text { place: 0, length: 7 }, Value::Number(1), Value::Number(100000000000000), Value::Text { place: 7, length: 3 }, Value::Text { place: 10, length: 7 }, Value::Text { place: 17, length: 4 }, Value::Text { place: 21, length: 7 }, Value::Number(20240229), Value::Text { place: 28, length: 8 }, Value::Number(1)], pool: b"TEXT 27A51TEXT 55CACCTEXT 79TEXT 164TEXT 194", row_number: 4, told: Told { number: 31, first: 10, second: 0 } },
    // Fields: empty, too large, too long, no such word, a bad byte.
    Refused { mark: b'0', values: &[Value::Text { place: 0, length: 7 }, Value::Number(1), Value::Number(0), Value::Text { place: 7, length: 3 }, Value::Text { place: 10, length: 7 }, Value::Text { place: 17, length: 4 }, Value::Text { place: 21, length: 7 }, Value::Number(20240229), Value::Text { place: 28, length: 8 }, Value::Text { place: 36, length: 8 }], pool: b"TEXT 27A51TEXT 55CACCTEXT 79TEXT 164TEXT 194", row_number: 4, told: Told { number: 12, first: 4, second: 37 } },
    Refused { mark: b'0', values: &[Value::Text { place: 0, length: 7 }, Value::Number(1), Value::Number(100000000000000), Value::Text { place: 7, length: 3 }, Value::Text { place: 10, length: 7 }, Value::Text { place: 17, length: 4 }, Value::Text { place: 21, length: 7 }, Value::Number(20240229), Value::Text { place: 28, length: 8 }, Value::Text { place: 36, length: 8 }], pool: b"TEXT 27A51TEXT 55CACCTEXT 79TEXT 164TEXT 194", row_number: 4, told: Told { number: 13, first: 4, second: 37 } },
    Refused { mark: b'0', values: &[Value::Text { place: 0, length: 9 }, Value::Number(1), Value::Number(37001), Value::Text { place: 7, length: 3 }, Value::Text { place: 10, length: 7 }, Value::Text { place: 17, length: 4 }, Value::Text { place: 21, length: 7 }, Value::Number(20240229), Value::Text { place: 28, length: 8 }, Value::Text { place: 36, length: 8 }], pool: b"TEXT 27A51TEXT 55CACCTEXT 79TEXT 164TEXT 194", row_number: 4, told: Told { number: 13, first: 4, second: 27 } },
    Refused { mark: b'0', values: &[Value::Text { place: 0, length: 7 }, Value::Number(1), Value::Number(37001), Value::Text { place: 7, length: 3 }, Value::Text { place: 10, length: 7 }, Value::Text { place: 0, length: 4 }, Value::Text { place: 21, length: 7 }, Value::Number(20240229), Value::Text { place: 28, length: 8 }, Value::Text { place: 36, length: 8 }], pool: b"TEXT 27A51TEXT 55CACCTEXT 79TEXT 164TEXT 194", row_number: 4, told: Told { number: 13, first: 4, second: 75 } },
    Refused { mark: b'0', values: &[Value::Text { place: 0, length: 7 }, Value::Number(1), Value::Number(37001), Value::Text { place: 7, length: 3 }, Value::Text { place: 10, length: 7 }, Value::Text { place: 17, length: 4 }, Value::Text { place: 21, length: 7 }, Value::Number(20240229), Value::Text { place: 44, length: 4 }, Value::Text { place: 36, length: 8 }], pool: b"TEXT 27A51TEXT 55CACCTEXT 79TEXT 164TEXT 194A\nBC", row_number: 4, told: Told { number: 11, first: 4, second: 165 } },
    // A worked number that is too wide, after every field before it.
    Refused { mark: b'0', values: &[Value::Text { place: 0, length: 7 }, Value::Number(1), Value::Number(37001), Value::Text { place: 7, length: 3 }, Value::Text { place: 10, length: 7 }, Value::Text { place: 17, length: 4 }, Value::Text { place: 21, length: 7 }, Value::Number(20240229), Value::Text { place: 28, length: 8 }, Value::Text { place: 36, length: 8 }], pool: b"TEXT 27A51TEXT 55CACCTEXT 79TEXT 164TEXT 194", row_number: 1000000, told: Told { number: 13, first: 4, second: 745 } },
    Refused { mark: b'0', values: &[Value::Text { place: 0, length: 7 }, Value::Number(1), Value::Number(0), Value::Text { place: 7, length: 3 }, Value::Text { place: 10, length: 7 }, Value::Text { place: 17, length: 4 }, Value::Text { place: 21, length: 7 }, Value::Number(20240229), Value::Text { place: 28, length: 8 }, Value::Text { place: 36, length: 8 }], pool: b"TEXT 27A51TEXT 55CACCTEXT 79TEXT 164TEXT 194", row_number: 1000000, told: Told { number: 12, first: 4, second: 37 } },
];
