// What document 02, Wish 1, says of single lines, in the characters of public examples. Nothing is run here: each function's promise is a
// statement of specs/, so that a check fails where its proof is missing.
ghost use Rattle.records.specs.Rulings.{Rulings, Longest, LineByLine};

// Lines of every type, good and bad, say what they must, give the digits of their data, and end where they must.
pub fn rulings()
    ensures { Rulings }
{}

// No good line has more than 514 characters.
pub fn longest()
    ensures { Longest }
{}

// Where each line stops and the next begins, told line by line, gives the lines of a text.
pub fn line_by_line()
    ensures { LineByLine }
{}
