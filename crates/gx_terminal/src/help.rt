//! The page of help of a terminal.

/// The page of help: the forms of a line, and what each asks for.
pub const HELP: &str = "\
A line has one of these forms. Its words are separated by spaces, and names are taken as they are written.

officers:
  kill ACCOUNT                          end its live orders, and take no more of it
  kill ACCOUNT ACCOUNT ..               so too of each of these
  kill --all                            so too of every account
  lift ACCOUNT                          take its orders again, once as many officers have lifted it as the policy asks for
  limit RULE VALUE                      give the rule this limit from now on
  restrict RULE STOCK                   put the stock on the rule's list
  unrestrict RULE STOCK                 take it off the list
  grant READER ACCOUNT                  show the reader the account's fills from now on
  revoke READER ACCOUNT                 show him no more of them
  close --yes                           end the day for everybody; nobody can undo it
traders:
  buy SHARES STOCK PRICE [day|ioc]      enter an order: day, which is meant where neither is written, rests until the day
  sell SHARES STOCK PRICE [day|ioc]       is closed; of ioc what meets nothing at once is canceled
  replace TOKEN SHARES PRICE [day|ioc]  give the order new terms; SHARES counts what was executed of it
  cancel TOKEN [SHARES]                 give the order this size, which counts what was executed of it; without it end it
anybody:
  watch                                 show what the gate sends as it comes
  help                                  show this page
  quit                                  log out

PRICE is in dollars, with at most four decimals: 10, 10.5 or 0.0001. VALUE is in shares; of a rule on a value it is money,
as $30,000 or 30000.00, with a dollar sign or a point; of a collar it is in ten-thousandths of the reference price. A line
whose first word begins with # is a comment.
";
