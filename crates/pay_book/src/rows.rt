//! Worked examples, computed from the definitions. Each function does nothing: its clauses are the
//! example.

ghost use Rattle.std.specs.Prelude.{◌≡◌, ◌-◌, ◌^◌, ℕ, List, [], ◌∷◌, Some, false, map, replicate};
ghost use Rattle.std.specs.Prelude.{slice_index, true};
ghost use Rattle.pay_book.specs.declared.payment.Entry.{Entry};
ghost use Rattle.pay_book.specs.declared.line.Line.{Line};
ghost use Rattle.pay_book.specs.Payment.{entry_of, entries_in, payment_value, payments_value};
ghost use Rattle.pay_book.specs.Places.{places_of};
ghost use Rattle.pay_book.specs.Statement.{statement_of};
ghost use Rattle.pay_book.specs.Rows.{thirty_to_1, five_to_0, five_to_1, five_to_2, five_to_3};
ghost use Rattle.pay_book.specs.Rows.{five_to_4, unknown_version, one_byte_short, amount_zero};
ghost use Rattle.pay_book.specs.Rows.{ten_to_0, ten_to_1, one_fifty_to_1, fifty_to_0};
ghost use Rattle.pay_book.specs.Rows.{greatest_u64_to_1, one_to_1, greatest_total_to_1};
ghost use Rattle.pay_book.specs.Rows.{four_payments, five_to_1_one_to_3, no_payments};
ghost use Rattle.pay_book.specs.Rows.{four_payments_and_more, four_payments_and_less};
ghost use Rattle.pay_book.specs.Rows.{times_one_to_1, thirty_to_0, four_numbers, four_lists};
ghost use Rattle.pay_book.specs.Rows.{EndsAt};
ghost use Rattle.pay_book.specs.Rows.{three_of_five, five_listed, both_settled, paid_and_said};
ghost use Rattle.pay_book.specs.Rows.{unsaid};
ghost use Rattle.pay_book.specs.Excerpt.{settled_from, waiting_of};
ghost use Rattle.pay_book.specs.Notes.{is_note_text, note_value};

/// States what some values of owner 3 mean as entries: payments, and values that are void for their
/// bytes, payee or amount.
pub fn values_decode()
    ensures payments { map (entry_of 4 3) (thirty_to_1 ∷ five_to_0 ∷ five_to_1 ∷ five_to_2 ∷ [])
        ≡ Entry.Pay 1 30 ∷ Entry.Pay 0 5 ∷ Entry.Pay 1 5 ∷ Entry.Pay 2 5 ∷ [] }
    ensures no_payments { map (entry_of 4 3) (unknown_version ∷ one_byte_short ∷ amount_zero ∷ [])
        ≡ Entry.Void ∷ Entry.Void ∷ Entry.Void ∷ [] }
    ensures own_payee { entry_of 4 3 five_to_3 ≡ Entry.Void }
    ensures no_such_payee { entry_of 4 3 five_to_4 ≡ Entry.Void }
{}

/// States how one payment is encoded as a value, and two payments in one value.
pub fn values_encode()
    ensures one { payment_value 1 30 ≡ thirty_to_1 }
    ensures several { payments_value
        (record { payee = 1; amount = 5 } ∷ record { payee = 3; amount = 1 } ∷ [])
        ≡ five_to_1_one_to_3 }
{}

/// States that two empty accounts that pay each other settle nothing, though both payments together
/// would leave no balance below zero. When money comes to one of them, all three payments settle.
pub fn circular_debts()
    ensures waiting { EndsAt (four_numbers 0 0 0 50)
        (four_lists (ten_to_1 ∷ []) (ten_to_0 ∷ []) [] [])
        (four_numbers 0 0 0 0) (four_numbers 0 0 0 50) }
    ensures settled { EndsAt (four_numbers 0 0 0 50)
        (four_lists (ten_to_1 ∷ []) (ten_to_0 ∷ []) [] (ten_to_0 ∷ []))
        (four_numbers 1 1 0 1) (four_numbers 10 0 0 40) }
{}

/// States that a payment which its owner's balance doesn't cover holds back the owner's next
/// payment, even if the balance would cover that.
pub fn uncovered_payment_waits()
    ensures waiting { EndsAt (four_numbers 100 0 0 50)
        (four_lists (one_fifty_to_1 ∷ ten_to_1 ∷ []) [] [] [])
        (four_numbers 0 0 0 0) (four_numbers 100 0 0 50) }
    ensures first_settled { EndsAt (four_numbers 100 0 0 50)
        (four_lists (one_fifty_to_1 ∷ ten_to_1 ∷ []) [] [] (fifty_to_0 ∷ []))
        (four_numbers 1 0 0 1) (four_numbers 0 150 0 0) }
{}

/// States that a value that is no payment holds nothing back, however long it is.
pub fn void_entry_passes()
    ensures short { EndsAt (four_numbers 100 0 0 50)
        (four_lists [] [] [] (unknown_version ∷ five_to_1 ∷ []))
        (four_numbers 0 0 0 2) (four_numbers 100 5 0 45) }
    ensures long { EndsAt (four_numbers 100 0 0 50)
        (four_lists [] [] [] (replicate 1024 255 ∷ five_to_1 ∷ []))
        (four_numbers 0 0 0 2) (four_numbers 100 5 0 45) }
{}

/// States that the greatest amount that a value can name stays uncovered, and that the greatest
/// opening total can be paid whole.
pub fn greatest_amounts()
    ensures uncovered { EndsAt (four_numbers 100 0 0 50)
        (four_lists (greatest_u64_to_1 ∷ one_to_1 ∷ []) [] [] [])
        (four_numbers 0 0 0 0) (four_numbers 100 0 0 50) }
    ensures paid_whole { EndsAt (four_numbers (2 ^ 63 - 1) 0 0 0)
        (four_lists (greatest_total_to_1 ∷ []) [] [] [])
        (four_numbers 1 0 0 0) (four_numbers 0 (2 ^ 63 - 1) 0 0) }
{}

/// States that after the circular debts are settled, account 0's statement has its own payment
/// first, then the payments to it by owner.
pub fn statement_after_circular_debts()
    ensures { statement_of 4 (four_lists (ten_to_1 ∷ []) (ten_to_0 ∷ []) [] (ten_to_0 ∷ []))
        (slice_index (four_numbers 1 1 0 1)) 0
        ≡ Line.Out 0 1 10 ∷ Line.In 1 0 10 ∷ Line.In 3 0 10 ∷ [] }
{}

/// States what values of owner 3 mean that begin like values of several payments. They have 1 to 32
/// payments, in their order and with a void one among them, or are void as a whole for their count
/// or length.
pub fn several_decode()
    ensures payments { entries_in 4 3 four_payments
        ≡ Entry.Pay 1 30 ∷ Entry.Pay 2 50 ∷ Entry.Pay 1 40 ∷ Entry.Pay 2 20 ∷ [] }
    ensures void_pair { entries_in 4 3 five_to_1_one_to_3 ≡ Entry.Pay 1 5 ∷ Entry.Void ∷ [] }
    ensures most { entries_in 4 3 (times_one_to_1 32) ≡ replicate 32 (Entry.Pay 1 1) }
    ensures too_many { entries_in 4 3 (times_one_to_1 33) ≡ Entry.Void ∷ [] }
    ensures none { entries_in 4 3 no_payments ≡ Entry.Void ∷ [] }
    ensures longer { entries_in 4 3 four_payments_and_more ≡ Entry.Void ∷ [] }
    ensures shorter { entries_in 4 3 four_payments_and_less ≡ Entry.Void ∷ [] }
{}

/// States that of four payments in one value the first two are covered, and that the third is
/// covered when more money comes.
pub fn four_payments_in_one()
    ensures half { EndsAt (four_numbers 100 0 0 50)
        (four_lists (four_payments ∷ []) [] [] [])
        (four_numbers 2 0 0 0) (four_numbers 20 30 50 50) }
    ensures more { EndsAt (four_numbers 100 0 0 50)
        (four_lists (four_payments ∷ []) (thirty_to_0 ∷ []) [] [])
        (four_numbers 3 1 0 0) (four_numbers 10 40 50 50) }
    ensures places { places_of 4 (four_lists (four_payments ∷ []) (thirty_to_0 ∷ []) [] [])
        (slice_index (four_numbers 3 1 0 0)) ≡ (0, 3) ∷ (1, 0) ∷ (0, 0) ∷ (0, 0) ∷ [] }
{}

/// States that a void payment among several holds nothing back, and neither does a value without
/// payments.
pub fn void_pair_passes()
    ensures pair { EndsAt (four_numbers 100 0 0 50)
        (four_lists [] [] [] (five_to_1_one_to_3 ∷ []))
        (four_numbers 0 0 0 2) (four_numbers 100 5 0 45) }
    ensures none { EndsAt (four_numbers 100 0 0 50)
        (four_lists [] [] [] (no_payments ∷ []))
        (four_numbers 0 0 0 1) (four_numbers 100 0 0 50) }
{}

/// States that an account's statement has a line for each settled entry, under its value's number.
pub fn statement_of_several()
    ensures payer { statement_of 4 (four_lists (four_payments ∷ []) (thirty_to_0 ∷ []) [] [])
        (slice_index (four_numbers 3 1 0 0)) 0
        ≡ Line.Out 0 1 30 ∷ Line.Out 0 2 50 ∷ Line.Out 0 1 40 ∷ Line.In 1 0 30 ∷ [] }
    ensures payee { statement_of 4 (four_lists (four_payments ∷ []) (thirty_to_0 ∷ []) [] [])
        (slice_index (four_numbers 3 1 0 0)) 1
        ≡ Line.Out 0 0 30 ∷ Line.In 0 0 30 ∷ Line.In 0 0 40 ∷ [] }
{}

/// States an account's settled entries from a number on, under their values' numbers, and what
/// waits. Of four payments in one value three are settled, and a fifth comes in another value.
pub fn excerpts_of_several()
    ensures all { settled_from three_of_five five_listed 0 0
        ≡ unsaid 0 (Entry.Pay 1 30) ∷ unsaid 0 (Entry.Pay 2 50)
        ∷ unsaid 0 (Entry.Pay 1 40) ∷ [] }
    ensures later { settled_from three_of_five five_listed 0 2
        ≡ unsaid 0 (Entry.Pay 1 40) ∷ [] }
    ensures nothing_new { settled_from three_of_five five_listed 0 3 ≡ [] }
    ensures to_come { settled_from three_of_five five_listed 0 4 ≡ [] }
    ensures of_payee { settled_from three_of_five five_listed 1 0
        ≡ unsaid 0 (Entry.Pay 0 30) ∷ [] }
    ensures waiting { waiting_of three_of_five five_listed 0
        ≡ unsaid 0 (Entry.Pay 2 20) ∷ unsaid 1 (Entry.Pay 1 30) ∷ [] }
    ensures none_waits { waiting_of three_of_five five_listed 1 ≡ [] }
{}

/// States that the text of a note is shown with its entry, which is void. For a text that no note
/// may contain nothing is shown.
pub fn excerpt_of_a_note()
    ensures value { note_value (72 ∷ 105 ∷ []) ≡ 3 ∷ 72 ∷ 105 ∷ [] }
    ensures said { (text : List ℕ) → is_note_text text ≡ true
        → settled_from (both_settled text) (paid_and_said text) 0 0
        ≡ unsaid 0 (Entry.Pay 1 30)
        ∷ record { seq = 1; entry = Entry.Void; note = Some text } ∷ [] }
    ensures unsaid { (text : List ℕ) → is_note_text text ≡ false
        → settled_from (both_settled text) (paid_and_said text) 0 0
        ≡ unsaid 0 (Entry.Pay 1 30) ∷ unsaid 1 Entry.Void ∷ [] }
{}
