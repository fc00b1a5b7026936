// Deliveries of several sizes that are read, and the largest.

// Heads of none and few rows, short and long.
pub const HEADS_READ: &str = "\
30000000000000000000000009207320700812026010101
30000000000000000000000051251220700812026010101
30000037200001000010000109207320700812026010101
30000041400000000000000209207320700812026010101
30000037200004000000000009307320700812026010101
30000090500005000020000110009920700812026010101
30000307100002000020000909251220700812026010101
30000664900009000080000751207420700812026010101";

// Every optional field of three rows in each file blank.
pub const BLANK: &str = "\
G    1  70 '                 '; G    1  88 '     '; \
S    1  18 '  '; S    1  43 '  '; S    1  64 '     '; S    1  70 ' '; S    1  72 ' '; \
P    1  41 '                                                                                          '; P    1 186 '    '; \
G    2  70 '                 '; G    2  88 '     '; \
S    2  18 '  '; S    2  43 '  '; S    2  64 '     '; S    2  70 ' '; S    2  72 ' '; \
P    2  41 '                                                                                          '; P    2 186 '    '; \
G    3  70 '                 '; G    3  88 '     '; \
S    3  18 '  '; S    3  43 '  '; S    3  64 '     '; S    3  70 ' '; S    3  72 ' '; \
P    3  41 '                                                                                          '; P    3 186 '    ' => \
read";

// With 4096 rows in each file.
pub const LARGEST: &str = "\
H    1   1 '3' => read
G 4096   1 '0082' => 6 field G row 4096 field 1 record 0
G 4096   5 '07115' => 8 row G row 4096 field 0 record 7115
G 4096   5 '07115'; G 3000   5 '91277' => 8 row G row 3000 field 0 record 91277
G 4096   5 '91277'; G 3000   5 '07115' => 8 row G row 3000 field 0 record 7115
G 4096  52 'Place 04093' => 7 row G row 4096 field 0 record 78810
S 4096   5 '00012' => 8 row S row 4096 field 0 record 12
S 4096  38 '00000' => 9 across S row 4096 field 10 record 71707
S 4096  20 'Place 04095x' => 10 across S row 4096 field 8 record 71707
G 4096  10 '2' => 9 across S row 4095 field 10 record 79626
P 4096 186 '0999' => 5 field P row 4096 field 21 record 0
P 4096   5 '5094'; P 4096 178 '5094' => 8 row P row 4096 field 0 record 5094
P 4096   5 '5093'; P 4096 178 '5093' => 7 row P row 4096 field 0 record 5093";
