// What others published or print. Each list says where it comes from.

// O'Neill's pcg32-demo, seed 42 and stream 54, round 1; libpcg-cpp prints the same.
pub(crate) const PCG32_DEMO: [u64; 6] = [
    0xa15c02b7, 0x7b47f409, 0xba1d3330, 0x83d2f293, 0xbfa4784b, 0xcbed606e,
];

// O'Neill's pcg64-demo, seed 42 and stream 54, round 1; libpcg-cpp prints the same. Her first word is the second here.
pub(crate) const PCG64_DEMO: [u64; 6] = [
    0x86b1da1d72062b68,
    0x1304aa46c9853d39,
    0xa3670e9e0dd50358,
    0xf9090e529a7dae00,
    0xc85b9fd837996f2c,
    0x606121f8e3919196,
];

// The first line pair of Matsumoto and Nishimura's mt19937ar.out, as Python's `random` gives it after init_by_array of the same key.
pub(crate) const MT19937AR_OUT: [u64; 10] = [
    1067595299, 955945823, 477289528, 4107218783, 4228976476, 3344332714, 3355579695, 227628506,
    810200273, 2591290167,
];

// The last of the 1000 words of that file, likewise from Python.
pub(crate) const MT19937AR_OUT_1000TH: u64 = 3460025646;

// C++'s std::mt19937 with its default seed, 5489, as libstdc++ gives it.
pub(crate) const STD_MT19937: [u64; 10] = [
    3499211612, 581869302, 3890346734, 3586334585, 545404204, 4161255391, 3922919429, 949333985,
    2715962298, 1323567403,
];

// Its 10000th word, which the C++ standard fixes (section rand.predef).
pub(crate) const STD_MT19937_10000TH: u64 = 4123659995;

// Java's jdk.random.Xoshiro256PlusPlus from the state 1, 2, 3, 4.
pub(crate) const JAVA_XOSHIRO: [u64; 10] = [
    41943041,
    58720359,
    3588806011781223,
    3591011842654386,
    9228616714210784205,
    9973669472204895162,
    14011001112246962877,
    12406186145184390807,
    15849039046786891736,
    10450023813501588000,
];

// The same generator after its jump() from that state.
pub(crate) const JAVA_XOSHIRO_JUMPED: [u64; 10] = [
    17043750140134683703,
    2364973248208838314,
    13951431646535487319,
    8066193832155293345,
    10838999831620499216,
    8680420094678800874,
    9570055643283944810,
    7079802948504130534,
    9337897757504934856,
    9754970014877867138,
];

// Java's SplittableRandom, which is SplitMix64, from 1234567 and from 42: the four words that a seed number is turned into.
pub(crate) const JAVA_SPLITMIX64_1234567: [u64; 4] = [
    6457827717110365317,
    3203168211198807973,
    9817491932198370423,
    4593380528125082431,
];

pub(crate) const JAVA_SPLITMIX64_42: [u64; 4] = [
    13679457532755275413,
    2949826092126892291,
    5139283748462763858,
    6349198060258255764,
];
