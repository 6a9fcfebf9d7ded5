//! Laws of lines and numbers, each the contract of a function that does nothing.
ghost use Rattle.std.specs.Prelude.{◌≡◌, ◌≤◌, ◌<◌, ◌^◌, ℕ, List, decimal};
ghost use Rattle.script_text.specs.Grammar.{Says};
ghost use Rattle.script_text.specs.Numbers.{number_in};
ghost use Rattle.script_text.specs.Reading.{line_in};
ghost use Rattle.script_text.specs.Worked.{FaultsInOrder, FormsDiffer, LinesSay};
ghost use Rattle.script_text.specs.declared.form.Form.{Form};
ghost use Rattle.script_text.specs.declared.line.Line.{Line};

/// A line is read exactly where the grammar says that it says so.
pub fn grammar()
    ensures only { (form : Form) (line : List ℕ) (l : Line) → line_in form line ≡ Ok l → Says form l line }
    ensures all { (form : Form) (line : List ℕ) (l : Line) → Says form l line → line_in form line ≡ Ok l }
{}

/// A text is read as a number exactly where it is the number's decimal digits.
pub fn numbers()
    ensures only { (most : ℕ) (text : List ℕ) (n : ℕ) → number_in most text ≡ Some n → (text ≡ decimal n) × (n ≤ most) }
    ensures all { (most n : ℕ) → most < 2 ^ 64 → n ≤ most → number_in most (decimal n) ≡ Some n }
{}

/// The definitions give what is written by hand in these examples.
pub fn worked_examples()
    ensures lines { LinesSay }
    ensures faults { FaultsInOrder }
    ensures forms { FormsDiffer }
{}
