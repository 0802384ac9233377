//! What `.help` prints.

/// The page that `.help` prints.
pub(crate) const HELP: &str =
    "A line that ends with ; is a request (INSERT, UPDATE, DELETE: up to 16 in one
request) or a question (SELECT). It may go over several lines.

  SELECT * FROM Pay;                      what is believed now
  @2 SELECT * FROM Pay ..;                the same, asked at member 2
  .. FOR SYSTEM_TIME AS OF TIMESTAMP '2026-03-15 00:00:00.000000'
                                          what was believed then
  .. FOR PORTION OF Paid FROM DATE '2026-02-01' TO DATE '2026-03-01'
                                          changes these days alone

  .beliefs SELECT ..;     draw what was ever believed
  .format table           how answers are shown: table, lines, csv, json
  .status                 the members: who leads, what they have, closed time
  .stop 2  .start 2       a member goes down, comes up
  .schema  .schema Pay    the tables as they were declared
  .submit 7 1 INSERT ..;  a request of a client that counts its own
  .clock T                clocks show T microseconds since 1970 from here on
  .help    .quit          this page; leave (end of input does too)
";
