//! The longest trace.
//! Written by `tools/example-texts` from `examples/` and `docs/MANUAL.md`.

/// The longest trace: what is run, over which files beside those of `file_table`, and what it writes.
pub fn further_long_traces_table() -> &'static str {
    r#"---- whole
done 1479 0.1 ring.shared ring:ring_sum:117: load i32 at 0x3000008 (event 230+0) = 28
done 1480 0.1 ring.shared ring:ring_sum:119: store i32 29 at 0x3000008 (event 230+0)
done 1481 0.1 ring.shared ring:ring_sum:99: load i32 at 0x3000008 (event 230+0) = 29
done 1482 0.1 ring.shared ring:ring_sum:100: load i32 at 0x3000000 (event 228+0) = 40
done 1483 0.1 ring.shared ring:ring_sum:105: load i32 at 0x3000008 (event 230+0) = 29
done 1484 0.1 ring.shared ring:ring_put:12: alloca 4 at 0x300000c
done 1485 0.1 ring.shared ring:ring_put:13: alloca 1 at 0x3000010
done 1486 0.1 ring.shared ring:ring_put:14: store i8 88 at 0x3000010 (event 1485+0)
done 1487 0.1 ring.shared ring:used:43: alloca 8 at 0x3000018
done 1488 0.1 ring.shared ring:used:44: store i64 0x1000000 at 0x3000018 (event 1487+0)
done 1489 0.1 ring.shared ring:used:45: load i64 at 0x3000018 (event 1487+0) = 0x1000000
done 1490 0.1 ring.shared ring:used:47: load i32 at 0x1000010 (ring:@ring+16) = 2
done 1491 0.1 ring.shared ring:used:48: load i64 at 0x3000018 (event 1487+0) = 0x1000000
done 1492 0.1 ring.shared ring:used:50: load i32 at 0x1000014 (ring:@ring+20) = 2
done 1493 0.1 ring.shared ring:used:53: leaves 15 at 0x3000011
done 1494 0.1 ring.shared ring:ring_put:24: load i8 at 0x3000010 (event 1485+0) = 88
done 1495 0.1 ring.shared ring:ring_put:25: load i32 at 0x1000010 (ring:@ring+16) = 2
done 1496 0.1 ring.shared ring:ring_put:28: store i8 88 at 0x1000002 (ring:@ring+2)
done 1497 0.1 ring.shared ring:ring_put:29: load i32 at 0x1000010 (ring:@ring+16) = 2
done 1498 0.1 ring.shared ring:ring_put:32: store i32 3 at 0x1000010 (ring:@ring+16)
done 1499 0.1 ring.shared ring:ring_put:33: store i32 0 at 0x300000c (event 1484+0)
done 1500 0.1 ring.shared ring:ring_put:37: load i32 at 0x300000c (event 1484+0) = 0
done 1501 0.1 ring.shared ring:ring_put:38: leaves 5 at 0x300000c
done 1502 0.1 ring.shared ring:ring_take:58: alloca 4 at 0x300000c
done 1503 0.1 ring.shared ring:ring_take:59: alloca 1 at 0x3000010
done 1504 0.1 ring.shared ring:used:43: alloca 8 at 0x3000018
done 1505 0.1 ring.shared ring:used:44: store i64 0x1000000 at 0x3000018 (event 1504+0)
done 1506 0.1 ring.shared ring:used:45: load i64 at 0x3000018 (event 1504+0) = 0x1000000
done 1507 0.1 ring.shared ring:used:47: load i32 at 0x1000010 (ring:@ring+16) = 3
done 1508 0.1 ring.shared ring:used:48: load i64 at 0x3000018 (event 1504+0) = 0x1000000
done 1509 0.1 ring.shared ring:used:50: load i32 at 0x1000014 (ring:@ring+20) = 2
done 1510 0.1 ring.shared ring:used:53: leaves 15 at 0x3000011
done 1511 0.1 ring.shared ring:ring_take:69: load i32 at 0x1000014 (ring:@ring+20) = 2
done 1512 0.1 ring.shared ring:ring_take:72: load i8 at 0x1000002 (ring:@ring+2) = 88
done 1513 0.1 ring.shared ring:ring_take:73: store i8 88 at 0x3000010 (event 1503+0)
done 1514 0.1 ring.shared ring:ring_take:74: load i32 at 0x1000014 (ring:@ring+20) = 2
done 1515 0.1 ring.shared ring:ring_take:77: store i32 3 at 0x1000014 (ring:@ring+20)
done 1516 0.1 ring.shared ring:ring_take:78: load i8 at 0x3000010 (event 1503+0) = 88
done 1517 0.1 ring.shared ring:ring_take:80: store i32 88 at 0x300000c (event 1502+0)
done 1518 0.1 ring.shared ring:ring_take:84: load i32 at 0x300000c (event 1502+0) = 88
done 1519 0.1 ring.shared ring:ring_take:85: leaves 5 at 0x300000c
done 1520 0.1 ring.shared ring:ring_sum:111: load i32 at 0x3000004 (event 229+0) = 1247
done 1521 0.1 ring.shared ring:ring_sum:113: store i32 1335 at 0x3000004 (event 229+0)
done 1522 0.1 ring.shared ring:ring_sum:117: load i32 at 0x3000008 (event 230+0) = 29
done 1523 0.1 ring.shared ring:ring_sum:119: store i32 30 at 0x3000008 (event 230+0)
done 1524 0.1 ring.shared ring:ring_sum:99: load i32 at 0x3000008 (event 230+0) = 30
done 1525 0.1 ring.shared ring:ring_sum:100: load i32 at 0x3000000 (event 228+0) = 40
done 1526 0.1 ring.shared ring:ring_sum:105: load i32 at 0x3000008 (event 230+0) = 30
done 1527 0.1 ring.shared ring:ring_put:12: alloca 4 at 0x300000c
done 1528 0.1 ring.shared ring:ring_put:13: alloca 1 at 0x3000010
done 1529 0.1 ring.shared ring:ring_put:14: store i8 91 at 0x3000010 (event 1528+0)
done 1530 0.1 ring.shared ring:used:43: alloca 8 at 0x3000018
done 1531 0.1 ring.shared ring:used:44: store i64 0x1000000 at 0x3000018 (event 1530+0)
done 1532 0.1 ring.shared ring:used:45: load i64 at 0x3000018 (event 1530+0) = 0x1000000
done 1533 0.1 ring.shared ring:used:47: load i32 at 0x1000010 (ring:@ring+16) = 3
done 1534 0.1 ring.shared ring:used:48: load i64 at 0x3000018 (event 1530+0) = 0x1000000
done 1535 0.1 ring.shared ring:used:50: load i32 at 0x1000014 (ring:@ring+20) = 3
done 1536 0.1 ring.shared ring:used:53: leaves 15 at 0x3000011
done 1537 0.1 ring.shared ring:ring_put:24: load i8 at 0x3000010 (event 1528+0) = 91
done 1538 0.1 ring.shared ring:ring_put:25: load i32 at 0x1000010 (ring:@ring+16) = 3
done 1539 0.1 ring.shared ring:ring_put:28: store i8 91 at 0x1000003 (ring:@ring+3)
done 1540 0.1 ring.shared ring:ring_put:29: load i32 at 0x1000010 (ring:@ring+16) = 3
done 1541 0.1 ring.shared ring:ring_put:32: store i32 4 at 0x1000010 (ring:@ring+16)
done 1542 0.1 ring.shared ring:ring_put:33: store i32 0 at 0x300000c (event 1527+0)
done 1543 0.1 ring.shared ring:ring_put:37: load i32 at 0x300000c (event 1527+0) = 0
done 1544 0.1 ring.shared ring:ring_put:38: leaves 5 at 0x300000c
done 1545 0.1 ring.shared ring:ring_take:58: alloca 4 at 0x300000c
done 1546 0.1 ring.shared ring:ring_take:59: alloca 1 at 0x3000010
done 1547 0.1 ring.shared ring:used:43: alloca 8 at 0x3000018
done 1548 0.1 ring.shared ring:used:44: store i64 0x1000000 at 0x3000018 (event 1547+0)
done 1549 0.1 ring.shared ring:used:45: load i64 at 0x3000018 (event 1547+0) = 0x1000000
done 1550 0.1 ring.shared ring:used:47: load i32 at 0x1000010 (ring:@ring+16) = 4
done 1551 0.1 ring.shared ring:used:48: load i64 at 0x3000018 (event 1547+0) = 0x1000000
done 1552 0.1 ring.shared ring:used:50: load i32 at 0x1000014 (ring:@ring+20) = 3
done 1553 0.1 ring.shared ring:used:53: leaves 15 at 0x3000011
done 1554 0.1 ring.shared ring:ring_take:69: load i32 at 0x1000014 (ring:@ring+20) = 3
done 1555 0.1 ring.shared ring:ring_take:72: load i8 at 0x1000003 (ring:@ring+3) = 91
done 1556 0.1 ring.shared ring:ring_take:73: store i8 91 at 0x3000010 (event 1546+0)
done 1557 0.1 ring.shared ring:ring_take:74: load i32 at 0x1000014 (ring:@ring+20) = 3
done 1558 0.1 ring.shared ring:ring_take:77: store i32 4 at 0x1000014 (ring:@ring+20)
done 1559 0.1 ring.shared ring:ring_take:78: load i8 at 0x3000010 (event 1546+0) = 91
done 1560 0.1 ring.shared ring:ring_take:80: store i32 91 at 0x300000c (event 1545+0)
done 1561 0.1 ring.shared ring:ring_take:84: load i32 at 0x300000c (event 1545+0) = 91
done 1562 0.1 ring.shared ring:ring_take:85: leaves 5 at 0x300000c
done 1563 0.1 ring.shared ring:ring_sum:111: load i32 at 0x3000004 (event 229+0) = 1335
done 1564 0.1 ring.shared ring:ring_sum:113: store i32 1426 at 0x3000004 (event 229+0)
done 1565 0.1 ring.shared ring:ring_sum:117: load i32 at 0x3000008 (event 230+0) = 30
done 1566 0.1 ring.shared ring:ring_sum:119: store i32 31 at 0x3000008 (event 230+0)
done 1567 0.1 ring.shared ring:ring_sum:99: load i32 at 0x3000008 (event 230+0) = 31
done 1568 0.1 ring.shared ring:ring_sum:100: load i32 at 0x3000000 (event 228+0) = 40
done 1569 0.1 ring.shared ring:ring_sum:105: load i32 at 0x3000008 (event 230+0) = 31
done 1570 0.1 ring.shared ring:ring_put:12: alloca 4 at 0x300000c
done 1571 0.1 ring.shared ring:ring_put:13: alloca 1 at 0x3000010
done 1572 0.1 ring.shared ring:ring_put:14: store i8 94 at 0x3000010 (event 1571+0)
done 1573 0.1 ring.shared ring:used:43: alloca 8 at 0x3000018
done 1574 0.1 ring.shared ring:used:44: store i64 0x1000000 at 0x3000018 (event 1573+0)
done 1575 0.1 ring.shared ring:used:45: load i64 at 0x3000018 (event 1573+0) = 0x1000000
done 1576 0.1 ring.shared ring:used:47: load i32 at 0x1000010 (ring:@ring+16) = 4
done 1577 0.1 ring.shared ring:used:48: load i64 at 0x3000018 (event 1573+0) = 0x1000000
done 1578 0.1 ring.shared ring:used:50: load i32 at 0x1000014 (ring:@ring+20) = 4
done 1579 0.1 ring.shared ring:used:53: leaves 15 at 0x3000011
done 1580 0.1 ring.shared ring:ring_put:24: load i8 at 0x3000010 (event 1571+0) = 94
done 1581 0.1 ring.shared ring:ring_put:25: load i32 at 0x1000010 (ring:@ring+16) = 4
done 1582 0.1 ring.shared ring:ring_put:28: store i8 94 at 0x1000004 (ring:@ring+4)
done 1583 0.1 ring.shared ring:ring_put:29: load i32 at 0x1000010 (ring:@ring+16) = 4
done 1584 0.1 ring.shared ring:ring_put:32: store i32 5 at 0x1000010 (ring:@ring+16)
done 1585 0.1 ring.shared ring:ring_put:33: store i32 0 at 0x300000c (event 1570+0)
done 1586 0.1 ring.shared ring:ring_put:37: load i32 at 0x300000c (event 1570+0) = 0
done 1587 0.1 ring.shared ring:ring_put:38: leaves 5 at 0x300000c
done 1588 0.1 ring.shared ring:ring_take:58: alloca 4 at 0x300000c
done 1589 0.1 ring.shared ring:ring_take:59: alloca 1 at 0x3000010
done 1590 0.1 ring.shared ring:used:43: alloca 8 at 0x3000018
done 1591 0.1 ring.shared ring:used:44: store i64 0x1000000 at 0x3000018 (event 1590+0)
done 1592 0.1 ring.shared ring:used:45: load i64 at 0x3000018 (event 1590+0) = 0x1000000
done 1593 0.1 ring.shared ring:used:47: load i32 at 0x1000010 (ring:@ring+16) = 5
done 1594 0.1 ring.shared ring:used:48: load i64 at 0x3000018 (event 1590+0) = 0x1000000
done 1595 0.1 ring.shared ring:used:50: load i32 at 0x1000014 (ring:@ring+20) = 4
done 1596 0.1 ring.shared ring:used:53: leaves 15 at 0x3000011
done 1597 0.1 ring.shared ring:ring_take:69: load i32 at 0x1000014 (ring:@ring+20) = 4
done 1598 0.1 ring.shared ring:ring_take:72: load i8 at 0x1000004 (ring:@ring+4) = 94
done 1599 0.1 ring.shared ring:ring_take:73: store i8 94 at 0x3000010 (event 1589+0)
done 1600 0.1 ring.shared ring:ring_take:74: load i32 at 0x1000014 (ring:@ring+20) = 4
done 1601 0.1 ring.shared ring:ring_take:77: store i32 5 at 0x1000014 (ring:@ring+20)
done 1602 0.1 ring.shared ring:ring_take:78: load i8 at 0x3000010 (event 1589+0) = 94
done 1603 0.1 ring.shared ring:ring_take:80: store i32 94 at 0x300000c (event 1588+0)
done 1604 0.1 ring.shared ring:ring_take:84: load i32 at 0x300000c (event 1588+0) = 94
done 1605 0.1 ring.shared ring:ring_take:85: leaves 5 at 0x300000c
done 1606 0.1 ring.shared ring:ring_sum:111: load i32 at 0x3000004 (event 229+0) = 1426
done 1607 0.1 ring.shared ring:ring_sum:113: store i32 1520 at 0x3000004 (event 229+0)
done 1608 0.1 ring.shared ring:ring_sum:117: load i32 at 0x3000008 (event 230+0) = 31
done 1609 0.1 ring.shared ring:ring_sum:119: store i32 32 at 0x3000008 (event 230+0)
done 1610 0.1 ring.shared ring:ring_sum:99: load i32 at 0x3000008 (event 230+0) = 32
done 1611 0.1 ring.shared ring:ring_sum:100: load i32 at 0x3000000 (event 228+0) = 40
done 1612 0.1 ring.shared ring:ring_sum:105: load i32 at 0x3000008 (event 230+0) = 32
done 1613 0.1 ring.shared ring:ring_put:12: alloca 4 at 0x300000c
done 1614 0.1 ring.shared ring:ring_put:13: alloca 1 at 0x3000010
done 1615 0.1 ring.shared ring:ring_put:14: store i8 97 at 0x3000010 (event 1614+0)
done 1616 0.1 ring.shared ring:used:43: alloca 8 at 0x3000018
done 1617 0.1 ring.shared ring:used:44: store i64 0x1000000 at 0x3000018 (event 1616+0)
done 1618 0.1 ring.shared ring:used:45: load i64 at 0x3000018 (event 1616+0) = 0x1000000
done 1619 0.1 ring.shared ring:used:47: load i32 at 0x1000010 (ring:@ring+16) = 5
done 1620 0.1 ring.shared ring:used:48: load i64 at 0x3000018 (event 1616+0) = 0x1000000
done 1621 0.1 ring.shared ring:used:50: load i32 at 0x1000014 (ring:@ring+20) = 5
done 1622 0.1 ring.shared ring:used:53: leaves 15 at 0x3000011
done 1623 0.1 ring.shared ring:ring_put:24: load i8 at 0x3000010 (event 1614+0) = 97
done 1624 0.1 ring.shared ring:ring_put:25: load i32 at 0x1000010 (ring:@ring+16) = 5
done 1625 0.1 ring.shared ring:ring_put:28: store i8 97 at 0x1000005 (ring:@ring+5)
done 1626 0.1 ring.shared ring:ring_put:29: load i32 at 0x1000010 (ring:@ring+16) = 5
done 1627 0.1 ring.shared ring:ring_put:32: store i32 6 at 0x1000010 (ring:@ring+16)
done 1628 0.1 ring.shared ring:ring_put:33: store i32 0 at 0x300000c (event 1613+0)
done 1629 0.1 ring.shared ring:ring_put:37: load i32 at 0x300000c (event 1613+0) = 0
done 1630 0.1 ring.shared ring:ring_put:38: leaves 5 at 0x300000c
done 1631 0.1 ring.shared ring:ring_take:58: alloca 4 at 0x300000c
done 1632 0.1 ring.shared ring:ring_take:59: alloca 1 at 0x3000010
done 1633 0.1 ring.shared ring:used:43: alloca 8 at 0x3000018
done 1634 0.1 ring.shared ring:used:44: store i64 0x1000000 at 0x3000018 (event 1633+0)
done 1635 0.1 ring.shared ring:used:45: load i64 at 0x3000018 (event 1633+0) = 0x1000000
done 1636 0.1 ring.shared ring:used:47: load i32 at 0x1000010 (ring:@ring+16) = 6
done 1637 0.1 ring.shared ring:used:48: load i64 at 0x3000018 (event 1633+0) = 0x1000000
done 1638 0.1 ring.shared ring:used:50: load i32 at 0x1000014 (ring:@ring+20) = 5
done 1639 0.1 ring.shared ring:used:53: leaves 15 at 0x3000011
done 1640 0.1 ring.shared ring:ring_take:69: load i32 at 0x1000014 (ring:@ring+20) = 5
done 1641 0.1 ring.shared ring:ring_take:72: load i8 at 0x1000005 (ring:@ring+5) = 97
done 1642 0.1 ring.shared ring:ring_take:73: store i8 97 at 0x3000010 (event 1632+0)
done 1643 0.1 ring.shared ring:ring_take:74: load i32 at 0x1000014 (ring:@ring+20) = 5
done 1644 0.1 ring.shared ring:ring_take:77: store i32 6 at 0x1000014 (ring:@ring+20)
done 1645 0.1 ring.shared ring:ring_take:78: load i8 at 0x3000010 (event 1632+0) = 97
done 1646 0.1 ring.shared ring:ring_take:80: store i32 97 at 0x300000c (event 1631+0)
done 1647 0.1 ring.shared ring:ring_take:84: load i32 at 0x300000c (event 1631+0) = 97
done 1648 0.1 ring.shared ring:ring_take:85: leaves 5 at 0x300000c
done 1649 0.1 ring.shared ring:ring_sum:111: load i32 at 0x3000004 (event 229+0) = 1520
done 1650 0.1 ring.shared ring:ring_sum:113: store i32 1617 at 0x3000004 (event 229+0)
done 1651 0.1 ring.shared ring:ring_sum:117: load i32 at 0x3000008 (event 230+0) = 32
done 1652 0.1 ring.shared ring:ring_sum:119: store i32 33 at 0x3000008 (event 230+0)
done 1653 0.1 ring.shared ring:ring_sum:99: load i32 at 0x3000008 (event 230+0) = 33
done 1654 0.1 ring.shared ring:ring_sum:100: load i32 at 0x3000000 (event 228+0) = 40
done 1655 0.1 ring.shared ring:ring_sum:105: load i32 at 0x3000008 (event 230+0) = 33
done 1656 0.1 ring.shared ring:ring_put:12: alloca 4 at 0x300000c
done 1657 0.1 ring.shared ring:ring_put:13: alloca 1 at 0x3000010
done 1658 0.1 ring.shared ring:ring_put:14: store i8 100 at 0x3000010 (event 1657+0)
done 1659 0.1 ring.shared ring:used:43: alloca 8 at 0x3000018
done 1660 0.1 ring.shared ring:used:44: store i64 0x1000000 at 0x3000018 (event 1659+0)
done 1661 0.1 ring.shared ring:used:45: load i64 at 0x3000018 (event 1659+0) = 0x1000000
done 1662 0.1 ring.shared ring:used:47: load i32 at 0x1000010 (ring:@ring+16) = 6
done 1663 0.1 ring.shared ring:used:48: load i64 at 0x3000018 (event 1659+0) = 0x1000000
done 1664 0.1 ring.shared ring:used:50: load i32 at 0x1000014 (ring:@ring+20) = 6
done 1665 0.1 ring.shared ring:used:53: leaves 15 at 0x3000011
done 1666 0.1 ring.shared ring:ring_put:24: load i8 at 0x3000010 (event 1657+0) = 100
done 1667 0.1 ring.shared ring:ring_put:25: load i32 at 0x1000010 (ring:@ring+16) = 6
done 1668 0.1 ring.shared ring:ring_put:28: store i8 100 at 0x1000006 (ring:@ring+6)
done 1669 0.1 ring.shared ring:ring_put:29: load i32 at 0x1000010 (ring:@ring+16) = 6
done 1670 0.1 ring.shared ring:ring_put:32: store i32 7 at 0x1000010 (ring:@ring+16)
done 1671 0.1 ring.shared ring:ring_put:33: store i32 0 at 0x300000c (event 1656+0)
done 1672 0.1 ring.shared ring:ring_put:37: load i32 at 0x300000c (event 1656+0) = 0
done 1673 0.1 ring.shared ring:ring_put:38: leaves 5 at 0x300000c
done 1674 0.1 ring.shared ring:ring_take:58: alloca 4 at 0x300000c
done 1675 0.1 ring.shared ring:ring_take:59: alloca 1 at 0x3000010
done 1676 0.1 ring.shared ring:used:43: alloca 8 at 0x3000018
done 1677 0.1 ring.shared ring:used:44: store i64 0x1000000 at 0x3000018 (event 1676+0)
done 1678 0.1 ring.shared ring:used:45: load i64 at 0x3000018 (event 1676+0) = 0x1000000
done 1679 0.1 ring.shared ring:used:47: load i32 at 0x1000010 (ring:@ring+16) = 7
done 1680 0.1 ring.shared ring:used:48: load i64 at 0x3000018 (event 1676+0) = 0x1000000
done 1681 0.1 ring.shared ring:used:50: load i32 at 0x1000014 (ring:@ring+20) = 6
done 1682 0.1 ring.shared ring:used:53: leaves 15 at 0x3000011
done 1683 0.1 ring.shared ring:ring_take:69: load i32 at 0x1000014 (ring:@ring+20) = 6
done 1684 0.1 ring.shared ring:ring_take:72: load i8 at 0x1000006 (ring:@ring+6) = 100
done 1685 0.1 ring.shared ring:ring_take:73: store i8 100 at 0x3000010 (event 1675+0)
done 1686 0.1 ring.shared ring:ring_take:74: load i32 at 0x1000014 (ring:@ring+20) = 6
done 1687 0.1 ring.shared ring:ring_take:77: store i32 7 at 0x1000014 (ring:@ring+20)
done 1688 0.1 ring.shared ring:ring_take:78: load i8 at 0x3000010 (event 1675+0) = 100
done 1689 0.1 ring.shared ring:ring_take:80: store i32 100 at 0x300000c (event 1674+0)
done 1690 0.1 ring.shared ring:ring_take:84: load i32 at 0x300000c (event 1674+0) = 100
done 1691 0.1 ring.shared ring:ring_take:85: leaves 5 at 0x300000c
done 1692 0.1 ring.shared ring:ring_sum:111: load i32 at 0x3000004 (event 229+0) = 1617
done 1693 0.1 ring.shared ring:ring_sum:113: store i32 1717 at 0x3000004 (event 229+0)
done 1694 0.1 ring.shared ring:ring_sum:117: load i32 at 0x3000008 (event 230+0) = 33
done 1695 0.1 ring.shared ring:ring_sum:119: store i32 34 at 0x3000008 (event 230+0)
done 1696 0.1 ring.shared ring:ring_sum:99: load i32 at 0x3000008 (event 230+0) = 34
done 1697 0.1 ring.shared ring:ring_sum:100: load i32 at 0x3000000 (event 228+0) = 40
done 1698 0.1 ring.shared ring:ring_sum:105: load i32 at 0x3000008 (event 230+0) = 34
done 1699 0.1 ring.shared ring:ring_put:12: alloca 4 at 0x300000c
done 1700 0.1 ring.shared ring:ring_put:13: alloca 1 at 0x3000010
done 1701 0.1 ring.shared ring:ring_put:14: store i8 103 at 0x3000010 (event 1700+0)
done 1702 0.1 ring.shared ring:used:43: alloca 8 at 0x3000018
done 1703 0.1 ring.shared ring:used:44: store i64 0x1000000 at 0x3000018 (event 1702+0)
done 1704 0.1 ring.shared ring:used:45: load i64 at 0x3000018 (event 1702+0) = 0x1000000
done 1705 0.1 ring.shared ring:used:47: load i32 at 0x1000010 (ring:@ring+16) = 7
done 1706 0.1 ring.shared ring:used:48: load i64 at 0x3000018 (event 1702+0) = 0x1000000
done 1707 0.1 ring.shared ring:used:50: load i32 at 0x1000014 (ring:@ring+20) = 7
done 1708 0.1 ring.shared ring:used:53: leaves 15 at 0x3000011
done 1709 0.1 ring.shared ring:ring_put:24: load i8 at 0x3000010 (event 1700+0) = 103
done 1710 0.1 ring.shared ring:ring_put:25: load i32 at 0x1000010 (ring:@ring+16) = 7
done 1711 0.1 ring.shared ring:ring_put:28: store i8 103 at 0x1000007 (ring:@ring+7)
done 1712 0.1 ring.shared ring:ring_put:29: load i32 at 0x1000010 (ring:@ring+16) = 7
done 1713 0.1 ring.shared ring:ring_put:32: store i32 8 at 0x1000010 (ring:@ring+16)
done 1714 0.1 ring.shared ring:ring_put:33: store i32 0 at 0x300000c (event 1699+0)
done 1715 0.1 ring.shared ring:ring_put:37: load i32 at 0x300000c (event 1699+0) = 0
done 1716 0.1 ring.shared ring:ring_put:38: leaves 5 at 0x300000c
done 1717 0.1 ring.shared ring:ring_take:58: alloca 4 at 0x300000c
done 1718 0.1 ring.shared ring:ring_take:59: alloca 1 at 0x3000010
done 1719 0.1 ring.shared ring:used:43: alloca 8 at 0x3000018
done 1720 0.1 ring.shared ring:used:44: store i64 0x1000000 at 0x3000018 (event 1719+0)
done 1721 0.1 ring.shared ring:used:45: load i64 at 0x3000018 (event 1719+0) = 0x1000000
done 1722 0.1 ring.shared ring:used:47: load i32 at 0x1000010 (ring:@ring+16) = 8
done 1723 0.1 ring.shared ring:used:48: load i64 at 0x3000018 (event 1719+0) = 0x1000000
done 1724 0.1 ring.shared ring:used:50: load i32 at 0x1000014 (ring:@ring+20) = 7
done 1725 0.1 ring.shared ring:used:53: leaves 15 at 0x3000011
done 1726 0.1 ring.shared ring:ring_take:69: load i32 at 0x1000014 (ring:@ring+20) = 7
done 1727 0.1 ring.shared ring:ring_take:72: load i8 at 0x1000007 (ring:@ring+7) = 103
done 1728 0.1 ring.shared ring:ring_take:73: store i8 103 at 0x3000010 (event 1718+0)
done 1729 0.1 ring.shared ring:ring_take:74: load i32 at 0x1000014 (ring:@ring+20) = 7
done 1730 0.1 ring.shared ring:ring_take:77: store i32 8 at 0x1000014 (ring:@ring+20)
done 1731 0.1 ring.shared ring:ring_take:78: load i8 at 0x3000010 (event 1718+0) = 103
done 1732 0.1 ring.shared ring:ring_take:80: store i32 103 at 0x300000c (event 1717+0)
done 1733 0.1 ring.shared ring:ring_take:84: load i32 at 0x300000c (event 1717+0) = 103
done 1734 0.1 ring.shared ring:ring_take:85: leaves 5 at 0x300000c
done 1735 0.1 ring.shared ring:ring_sum:111: load i32 at 0x3000004 (event 229+0) = 1717
done 1736 0.1 ring.shared ring:ring_sum:113: store i32 1820 at 0x3000004 (event 229+0)
done 1737 0.1 ring.shared ring:ring_sum:117: load i32 at 0x3000008 (event 230+0) = 34
done 1738 0.1 ring.shared ring:ring_sum:119: store i32 35 at 0x3000008 (event 230+0)
done 1739 0.1 ring.shared ring:ring_sum:99: load i32 at 0x3000008 (event 230+0) = 35
done 1740 0.1 ring.shared ring:ring_sum:100: load i32 at 0x3000000 (event 228+0) = 40
done 1741 0.1 ring.shared ring:ring_sum:105: load i32 at 0x3000008 (event 230+0) = 35
done 1742 0.1 ring.shared ring:ring_put:12: alloca 4 at 0x300000c
done 1743 0.1 ring.shared ring:ring_put:13: alloca 1 at 0x3000010
done 1744 0.1 ring.shared ring:ring_put:14: store i8 106 at 0x3000010 (event 1743+0)
done 1745 0.1 ring.shared ring:used:43: alloca 8 at 0x3000018
done 1746 0.1 ring.shared ring:used:44: store i64 0x1000000 at 0x3000018 (event 1745+0)
done 1747 0.1 ring.shared ring:used:45: load i64 at 0x3000018 (event 1745+0) = 0x1000000
done 1748 0.1 ring.shared ring:used:47: load i32 at 0x1000010 (ring:@ring+16) = 8
done 1749 0.1 ring.shared ring:used:48: load i64 at 0x3000018 (event 1745+0) = 0x1000000
done 1750 0.1 ring.shared ring:used:50: load i32 at 0x1000014 (ring:@ring+20) = 8
done 1751 0.1 ring.shared ring:used:53: leaves 15 at 0x3000011
done 1752 0.1 ring.shared ring:ring_put:24: load i8 at 0x3000010 (event 1743+0) = 106
done 1753 0.1 ring.shared ring:ring_put:25: load i32 at 0x1000010 (ring:@ring+16) = 8
done 1754 0.1 ring.shared ring:ring_put:28: store i8 106 at 0x1000008 (ring:@ring+8)
done 1755 0.1 ring.shared ring:ring_put:29: load i32 at 0x1000010 (ring:@ring+16) = 8
done 1756 0.1 ring.shared ring:ring_put:32: store i32 9 at 0x1000010 (ring:@ring+16)
done 1757 0.1 ring.shared ring:ring_put:33: store i32 0 at 0x300000c (event 1742+0)
done 1758 0.1 ring.shared ring:ring_put:37: load i32 at 0x300000c (event 1742+0) = 0
done 1759 0.1 ring.shared ring:ring_put:38: leaves 5 at 0x300000c
done 1760 0.1 ring.shared ring:ring_take:58: alloca 4 at 0x300000c
done 1761 0.1 ring.shared ring:ring_take:59: alloca 1 at 0x3000010
done 1762 0.1 ring.shared ring:used:43: alloca 8 at 0x3000018
done 1763 0.1 ring.shared ring:used:44: store i64 0x1000000 at 0x3000018 (event 1762+0)
done 1764 0.1 ring.shared ring:used:45: load i64 at 0x3000018 (event 1762+0) = 0x1000000
done 1765 0.1 ring.shared ring:used:47: load i32 at 0x1000010 (ring:@ring+16) = 9
done 1766 0.1 ring.shared ring:used:48: load i64 at 0x3000018 (event 1762+0) = 0x1000000
done 1767 0.1 ring.shared ring:used:50: load i32 at 0x1000014 (ring:@ring+20) = 8
done 1768 0.1 ring.shared ring:used:53: leaves 15 at 0x3000011
done 1769 0.1 ring.shared ring:ring_take:69: load i32 at 0x1000014 (ring:@ring+20) = 8
done 1770 0.1 ring.shared ring:ring_take:72: load i8 at 0x1000008 (ring:@ring+8) = 106
done 1771 0.1 ring.shared ring:ring_take:73: store i8 106 at 0x3000010 (event 1761+0)
done 1772 0.1 ring.shared ring:ring_take:74: load i32 at 0x1000014 (ring:@ring+20) = 8
done 1773 0.1 ring.shared ring:ring_take:77: store i32 9 at 0x1000014 (ring:@ring+20)
done 1774 0.1 ring.shared ring:ring_take:78: load i8 at 0x3000010 (event 1761+0) = 106
done 1775 0.1 ring.shared ring:ring_take:80: store i32 106 at 0x300000c (event 1760+0)
done 1776 0.1 ring.shared ring:ring_take:84: load i32 at 0x300000c (event 1760+0) = 106
done 1777 0.1 ring.shared ring:ring_take:85: leaves 5 at 0x300000c
done 1778 0.1 ring.shared ring:ring_sum:111: load i32 at 0x3000004 (event 229+0) = 1820
done 1779 0.1 ring.shared ring:ring_sum:113: store i32 1926 at 0x3000004 (event 229+0)
done 1780 0.1 ring.shared ring:ring_sum:117: load i32 at 0x3000008 (event 230+0) = 35
done 1781 0.1 ring.shared ring:ring_sum:119: store i32 36 at 0x3000008 (event 230+0)
done 1782 0.1 ring.shared ring:ring_sum:99: load i32 at 0x3000008 (event 230+0) = 36
done 1783 0.1 ring.shared ring:ring_sum:100: load i32 at 0x3000000 (event 228+0) = 40
done 1784 0.1 ring.shared ring:ring_sum:105: load i32 at 0x3000008 (event 230+0) = 36
done 1785 0.1 ring.shared ring:ring_put:12: alloca 4 at 0x300000c
done 1786 0.1 ring.shared ring:ring_put:13: alloca 1 at 0x3000010
done 1787 0.1 ring.shared ring:ring_put:14: store i8 109 at 0x3000010 (event 1786+0)
done 1788 0.1 ring.shared ring:used:43: alloca 8 at 0x3000018
done 1789 0.1 ring.shared ring:used:44: store i64 0x1000000 at 0x3000018 (event 1788+0)
done 1790 0.1 ring.shared ring:used:45: load i64 at 0x3000018 (event 1788+0) = 0x1000000
done 1791 0.1 ring.shared ring:used:47: load i32 at 0x1000010 (ring:@ring+16) = 9
done 1792 0.1 ring.shared ring:used:48: load i64 at 0x3000018 (event 1788+0) = 0x1000000
done 1793 0.1 ring.shared ring:used:50: load i32 at 0x1000014 (ring:@ring+20) = 9
done 1794 0.1 ring.shared ring:used:53: leaves 15 at 0x3000011
done 1795 0.1 ring.shared ring:ring_put:24: load i8 at 0x3000010 (event 1786+0) = 109
done 1796 0.1 ring.shared ring:ring_put:25: load i32 at 0x1000010 (ring:@ring+16) = 9
done 1797 0.1 ring.shared ring:ring_put:28: store i8 109 at 0x1000009 (ring:@ring+9)
done 1798 0.1 ring.shared ring:ring_put:29: load i32 at 0x1000010 (ring:@ring+16) = 9
done 1799 0.1 ring.shared ring:ring_put:32: store i32 10 at 0x1000010 (ring:@ring+16)
done 1800 0.1 ring.shared ring:ring_put:33: store i32 0 at 0x300000c (event 1785+0)
done 1801 0.1 ring.shared ring:ring_put:37: load i32 at 0x300000c (event 1785+0) = 0
done 1802 0.1 ring.shared ring:ring_put:38: leaves 5 at 0x300000c
done 1803 0.1 ring.shared ring:ring_take:58: alloca 4 at 0x300000c
done 1804 0.1 ring.shared ring:ring_take:59: alloca 1 at 0x3000010
done 1805 0.1 ring.shared ring:used:43: alloca 8 at 0x3000018
done 1806 0.1 ring.shared ring:used:44: store i64 0x1000000 at 0x3000018 (event 1805+0)
done 1807 0.1 ring.shared ring:used:45: load i64 at 0x3000018 (event 1805+0) = 0x1000000
done 1808 0.1 ring.shared ring:used:47: load i32 at 0x1000010 (ring:@ring+16) = 10
done 1809 0.1 ring.shared ring:used:48: load i64 at 0x3000018 (event 1805+0) = 0x1000000
done 1810 0.1 ring.shared ring:used:50: load i32 at 0x1000014 (ring:@ring+20) = 9
done 1811 0.1 ring.shared ring:used:53: leaves 15 at 0x3000011
done 1812 0.1 ring.shared ring:ring_take:69: load i32 at 0x1000014 (ring:@ring+20) = 9
done 1813 0.1 ring.shared ring:ring_take:72: load i8 at 0x1000009 (ring:@ring+9) = 109
done 1814 0.1 ring.shared ring:ring_take:73: store i8 109 at 0x3000010 (event 1804+0)
done 1815 0.1 ring.shared ring:ring_take:74: load i32 at 0x1000014 (ring:@ring+20) = 9
done 1816 0.1 ring.shared ring:ring_take:77: store i32 10 at 0x1000014 (ring:@ring+20)
done 1817 0.1 ring.shared ring:ring_take:78: load i8 at 0x3000010 (event 1804+0) = 109
done 1818 0.1 ring.shared ring:ring_take:80: store i32 109 at 0x300000c (event 1803+0)
done 1819 0.1 ring.shared ring:ring_take:84: load i32 at 0x300000c (event 1803+0) = 109
done 1820 0.1 ring.shared ring:ring_take:85: leaves 5 at 0x300000c
done 1821 0.1 ring.shared ring:ring_sum:111: load i32 at 0x3000004 (event 229+0) = 1926
done 1822 0.1 ring.shared ring:ring_sum:113: store i32 2035 at 0x3000004 (event 229+0)
done 1823 0.1 ring.shared ring:ring_sum:117: load i32 at 0x3000008 (event 230+0) = 36
done 1824 0.1 ring.shared ring:ring_sum:119: store i32 37 at 0x3000008 (event 230+0)
done 1825 0.1 ring.shared ring:ring_sum:99: load i32 at 0x3000008 (event 230+0) = 37
done 1826 0.1 ring.shared ring:ring_sum:100: load i32 at 0x3000000 (event 228+0) = 40
done 1827 0.1 ring.shared ring:ring_sum:105: load i32 at 0x3000008 (event 230+0) = 37
done 1828 0.1 ring.shared ring:ring_put:12: alloca 4 at 0x300000c
done 1829 0.1 ring.shared ring:ring_put:13: alloca 1 at 0x3000010
done 1830 0.1 ring.shared ring:ring_put:14: store i8 112 at 0x3000010 (event 1829+0)
done 1831 0.1 ring.shared ring:used:43: alloca 8 at 0x3000018
done 1832 0.1 ring.shared ring:used:44: store i64 0x1000000 at 0x3000018 (event 1831+0)
done 1833 0.1 ring.shared ring:used:45: load i64 at 0x3000018 (event 1831+0) = 0x1000000
done 1834 0.1 ring.shared ring:used:47: load i32 at 0x1000010 (ring:@ring+16) = 10
done 1835 0.1 ring.shared ring:used:48: load i64 at 0x3000018 (event 1831+0) = 0x1000000
done 1836 0.1 ring.shared ring:used:50: load i32 at 0x1000014 (ring:@ring+20) = 10
done 1837 0.1 ring.shared ring:used:53: leaves 15 at 0x3000011
done 1838 0.1 ring.shared ring:ring_put:24: load i8 at 0x3000010 (event 1829+0) = 112
done 1839 0.1 ring.shared ring:ring_put:25: load i32 at 0x1000010 (ring:@ring+16) = 10
done 1840 0.1 ring.shared ring:ring_put:28: store i8 112 at 0x100000a (ring:@ring+10)
done 1841 0.1 ring.shared ring:ring_put:29: load i32 at 0x1000010 (ring:@ring+16) = 10
done 1842 0.1 ring.shared ring:ring_put:32: store i32 11 at 0x1000010 (ring:@ring+16)
done 1843 0.1 ring.shared ring:ring_put:33: store i32 0 at 0x300000c (event 1828+0)
done 1844 0.1 ring.shared ring:ring_put:37: load i32 at 0x300000c (event 1828+0) = 0
done 1845 0.1 ring.shared ring:ring_put:38: leaves 5 at 0x300000c
done 1846 0.1 ring.shared ring:ring_take:58: alloca 4 at 0x300000c
done 1847 0.1 ring.shared ring:ring_take:59: alloca 1 at 0x3000010
done 1848 0.1 ring.shared ring:used:43: alloca 8 at 0x3000018
done 1849 0.1 ring.shared ring:used:44: store i64 0x1000000 at 0x3000018 (event 1848+0)
done 1850 0.1 ring.shared ring:used:45: load i64 at 0x3000018 (event 1848+0) = 0x1000000
done 1851 0.1 ring.shared ring:used:47: load i32 at 0x1000010 (ring:@ring+16) = 11
done 1852 0.1 ring.shared ring:used:48: load i64 at 0x3000018 (event 1848+0) = 0x1000000
done 1853 0.1 ring.shared ring:used:50: load i32 at 0x1000014 (ring:@ring+20) = 10
done 1854 0.1 ring.shared ring:used:53: leaves 15 at 0x3000011
done 1855 0.1 ring.shared ring:ring_take:69: load i32 at 0x1000014 (ring:@ring+20) = 10
done 1856 0.1 ring.shared ring:ring_take:72: load i8 at 0x100000a (ring:@ring+10) = 112
done 1857 0.1 ring.shared ring:ring_take:73: store i8 112 at 0x3000010 (event 1847+0)
done 1858 0.1 ring.shared ring:ring_take:74: load i32 at 0x1000014 (ring:@ring+20) = 10
done 1859 0.1 ring.shared ring:ring_take:77: store i32 11 at 0x1000014 (ring:@ring+20)
done 1860 0.1 ring.shared ring:ring_take:78: load i8 at 0x3000010 (event 1847+0) = 112
done 1861 0.1 ring.shared ring:ring_take:80: store i32 112 at 0x300000c (event 1846+0)
done 1862 0.1 ring.shared ring:ring_take:84: load i32 at 0x300000c (event 1846+0) = 112
done 1863 0.1 ring.shared ring:ring_take:85: leaves 5 at 0x300000c
done 1864 0.1 ring.shared ring:ring_sum:111: load i32 at 0x3000004 (event 229+0) = 2035
done 1865 0.1 ring.shared ring:ring_sum:113: store i32 2147 at 0x3000004 (event 229+0)
done 1866 0.1 ring.shared ring:ring_sum:117: load i32 at 0x3000008 (event 230+0) = 37
done 1867 0.1 ring.shared ring:ring_sum:119: store i32 38 at 0x3000008 (event 230+0)
done 1868 0.1 ring.shared ring:ring_sum:99: load i32 at 0x3000008 (event 230+0) = 38
done 1869 0.1 ring.shared ring:ring_sum:100: load i32 at 0x3000000 (event 228+0) = 40
done 1870 0.1 ring.shared ring:ring_sum:105: load i32 at 0x3000008 (event 230+0) = 38
done 1871 0.1 ring.shared ring:ring_put:12: alloca 4 at 0x300000c
done 1872 0.1 ring.shared ring:ring_put:13: alloca 1 at 0x3000010
done 1873 0.1 ring.shared ring:ring_put:14: store i8 115 at 0x3000010 (event 1872+0)
done 1874 0.1 ring.shared ring:used:43: alloca 8 at 0x3000018
done 1875 0.1 ring.shared ring:used:44: store i64 0x1000000 at 0x3000018 (event 1874+0)
done 1876 0.1 ring.shared ring:used:45: load i64 at 0x3000018 (event 1874+0) = 0x1000000
done 1877 0.1 ring.shared ring:used:47: load i32 at 0x1000010 (ring:@ring+16) = 11
done 1878 0.1 ring.shared ring:used:48: load i64 at 0x3000018 (event 1874+0) = 0x1000000
done 1879 0.1 ring.shared ring:used:50: load i32 at 0x1000014 (ring:@ring+20) = 11
done 1880 0.1 ring.shared ring:used:53: leaves 15 at 0x3000011
done 1881 0.1 ring.shared ring:ring_put:24: load i8 at 0x3000010 (event 1872+0) = 115
done 1882 0.1 ring.shared ring:ring_put:25: load i32 at 0x1000010 (ring:@ring+16) = 11
done 1883 0.1 ring.shared ring:ring_put:28: store i8 115 at 0x100000b (ring:@ring+11)
done 1884 0.1 ring.shared ring:ring_put:29: load i32 at 0x1000010 (ring:@ring+16) = 11
done 1885 0.1 ring.shared ring:ring_put:32: store i32 12 at 0x1000010 (ring:@ring+16)
done 1886 0.1 ring.shared ring:ring_put:33: store i32 0 at 0x300000c (event 1871+0)
done 1887 0.1 ring.shared ring:ring_put:37: load i32 at 0x300000c (event 1871+0) = 0
done 1888 0.1 ring.shared ring:ring_put:38: leaves 5 at 0x300000c
done 1889 0.1 ring.shared ring:ring_take:58: alloca 4 at 0x300000c
done 1890 0.1 ring.shared ring:ring_take:59: alloca 1 at 0x3000010
done 1891 0.1 ring.shared ring:used:43: alloca 8 at 0x3000018
done 1892 0.1 ring.shared ring:used:44: store i64 0x1000000 at 0x3000018 (event 1891+0)
done 1893 0.1 ring.shared ring:used:45: load i64 at 0x3000018 (event 1891+0) = 0x1000000
done 1894 0.1 ring.shared ring:used:47: load i32 at 0x1000010 (ring:@ring+16) = 12
done 1895 0.1 ring.shared ring:used:48: load i64 at 0x3000018 (event 1891+0) = 0x1000000
done 1896 0.1 ring.shared ring:used:50: load i32 at 0x1000014 (ring:@ring+20) = 11
done 1897 0.1 ring.shared ring:used:53: leaves 15 at 0x3000011
done 1898 0.1 ring.shared ring:ring_take:69: load i32 at 0x1000014 (ring:@ring+20) = 11
done 1899 0.1 ring.shared ring:ring_take:72: load i8 at 0x100000b (ring:@ring+11) = 115
done 1900 0.1 ring.shared ring:ring_take:73: store i8 115 at 0x3000010 (event 1890+0)
done 1901 0.1 ring.shared ring:ring_take:74: load i32 at 0x1000014 (ring:@ring+20) = 11
done 1902 0.1 ring.shared ring:ring_take:77: store i32 12 at 0x1000014 (ring:@ring+20)
done 1903 0.1 ring.shared ring:ring_take:78: load i8 at 0x3000010 (event 1890+0) = 115
done 1904 0.1 ring.shared ring:ring_take:80: store i32 115 at 0x300000c (event 1889+0)
done 1905 0.1 ring.shared ring:ring_take:84: load i32 at 0x300000c (event 1889+0) = 115
done 1906 0.1 ring.shared ring:ring_take:85: leaves 5 at 0x300000c
done 1907 0.1 ring.shared ring:ring_sum:111: load i32 at 0x3000004 (event 229+0) = 2147
done 1908 0.1 ring.shared ring:ring_sum:113: store i32 2262 at 0x3000004 (event 229+0)
done 1909 0.1 ring.shared ring:ring_sum:117: load i32 at 0x3000008 (event 230+0) = 38
done 1910 0.1 ring.shared ring:ring_sum:119: store i32 39 at 0x3000008 (event 230+0)
done 1911 0.1 ring.shared ring:ring_sum:99: load i32 at 0x3000008 (event 230+0) = 39
done 1912 0.1 ring.shared ring:ring_sum:100: load i32 at 0x3000000 (event 228+0) = 40
done 1913 0.1 ring.shared ring:ring_sum:105: load i32 at 0x3000008 (event 230+0) = 39
done 1914 0.1 ring.shared ring:ring_put:12: alloca 4 at 0x300000c
done 1915 0.1 ring.shared ring:ring_put:13: alloca 1 at 0x3000010
done 1916 0.1 ring.shared ring:ring_put:14: store i8 118 at 0x3000010 (event 1915+0)
done 1917 0.1 ring.shared ring:used:43: alloca 8 at 0x3000018
done 1918 0.1 ring.shared ring:used:44: store i64 0x1000000 at 0x3000018 (event 1917+0)
done 1919 0.1 ring.shared ring:used:45: load i64 at 0x3000018 (event 1917+0) = 0x1000000
done 1920 0.1 ring.shared ring:used:47: load i32 at 0x1000010 (ring:@ring+16) = 12
done 1921 0.1 ring.shared ring:used:48: load i64 at 0x3000018 (event 1917+0) = 0x1000000
done 1922 0.1 ring.shared ring:used:50: load i32 at 0x1000014 (ring:@ring+20) = 12
done 1923 0.1 ring.shared ring:used:53: leaves 15 at 0x3000011
done 1924 0.1 ring.shared ring:ring_put:24: load i8 at 0x3000010 (event 1915+0) = 118
done 1925 0.1 ring.shared ring:ring_put:25: load i32 at 0x1000010 (ring:@ring+16) = 12
done 1926 0.1 ring.shared ring:ring_put:28: store i8 118 at 0x100000c (ring:@ring+12)
done 1927 0.1 ring.shared ring:ring_put:29: load i32 at 0x1000010 (ring:@ring+16) = 12
done 1928 0.1 ring.shared ring:ring_put:32: store i32 13 at 0x1000010 (ring:@ring+16)
done 1929 0.1 ring.shared ring:ring_put:33: store i32 0 at 0x300000c (event 1914+0)
done 1930 0.1 ring.shared ring:ring_put:37: load i32 at 0x300000c (event 1914+0) = 0
done 1931 0.1 ring.shared ring:ring_put:38: leaves 5 at 0x300000c
done 1932 0.1 ring.shared ring:ring_take:58: alloca 4 at 0x300000c
done 1933 0.1 ring.shared ring:ring_take:59: alloca 1 at 0x3000010
done 1934 0.1 ring.shared ring:used:43: alloca 8 at 0x3000018
done 1935 0.1 ring.shared ring:used:44: store i64 0x1000000 at 0x3000018 (event 1934+0)
done 1936 0.1 ring.shared ring:used:45: load i64 at 0x3000018 (event 1934+0) = 0x1000000
done 1937 0.1 ring.shared ring:used:47: load i32 at 0x1000010 (ring:@ring+16) = 13
done 1938 0.1 ring.shared ring:used:48: load i64 at 0x3000018 (event 1934+0) = 0x1000000
done 1939 0.1 ring.shared ring:used:50: load i32 at 0x1000014 (ring:@ring+20) = 12
done 1940 0.1 ring.shared ring:used:53: leaves 15 at 0x3000011
done 1941 0.1 ring.shared ring:ring_take:69: load i32 at 0x1000014 (ring:@ring+20) = 12
done 1942 0.1 ring.shared ring:ring_take:72: load i8 at 0x100000c (ring:@ring+12) = 118
done 1943 0.1 ring.shared ring:ring_take:73: store i8 118 at 0x3000010 (event 1933+0)
done 1944 0.1 ring.shared ring:ring_take:74: load i32 at 0x1000014 (ring:@ring+20) = 12
done 1945 0.1 ring.shared ring:ring_take:77: store i32 13 at 0x1000014 (ring:@ring+20)
done 1946 0.1 ring.shared ring:ring_take:78: load i8 at 0x3000010 (event 1933+0) = 118
done 1947 0.1 ring.shared ring:ring_take:80: store i32 118 at 0x300000c (event 1932+0)
done 1948 0.1 ring.shared ring:ring_take:84: load i32 at 0x300000c (event 1932+0) = 118
done 1949 0.1 ring.shared ring:ring_take:85: leaves 5 at 0x300000c
done 1950 0.1 ring.shared ring:ring_sum:111: load i32 at 0x3000004 (event 229+0) = 2262
done 1951 0.1 ring.shared ring:ring_sum:113: store i32 2380 at 0x3000004 (event 229+0)
done 1952 0.1 ring.shared ring:ring_sum:117: load i32 at 0x3000008 (event 230+0) = 39
done 1953 0.1 ring.shared ring:ring_sum:119: store i32 40 at 0x3000008 (event 230+0)
done 1954 0.1 ring.shared ring:ring_sum:99: load i32 at 0x3000008 (event 230+0) = 40
done 1955 0.1 ring.shared ring:ring_sum:100: load i32 at 0x3000000 (event 228+0) = 40
done 1956 0.1 ring.shared ring:ring_sum:123: load i32 at 0x3000004 (event 229+0) = 2380
done 1957 0.1 ring.shared ring:ring_sum:124: leaves 12 at 0x3000000
ends 1958 0.1 kernel script: ends: returned 2380
done 1959 0.2 kernel script: calls ring:ring_put(9) enters ring:ring_put as ring.shared
done 1960 0.2 ring.shared ring:ring_put:12: alloca 4 at 0x3000000
done 1961 0.2 ring.shared ring:ring_put:13: alloca 1 at 0x3000004
done 1962 0.2 ring.shared ring:ring_put:14: store i8 9 at 0x3000004 (event 1961+0)
done 1963 0.2 ring.shared ring:used:43: alloca 8 at 0x3000008
done 1964 0.2 ring.shared ring:used:44: store i64 0x1000000 at 0x3000008 (event 1963+0)
done 1965 0.2 ring.shared ring:used:45: load i64 at 0x3000008 (event 1963+0) = 0x1000000
done 1966 0.2 ring.shared ring:used:47: load i32 at 0x1000010 (ring:@ring+16) = 13
done 1967 0.2 ring.shared ring:used:48: load i64 at 0x3000008 (event 1963+0) = 0x1000000
done 1968 0.2 ring.shared ring:used:50: load i32 at 0x1000014 (ring:@ring+20) = 13
done 1969 0.2 ring.shared ring:used:53: leaves 11 at 0x3000005
done 1970 0.2 ring.shared ring:ring_put:24: load i8 at 0x3000004 (event 1961+0) = 9
done 1971 0.2 ring.shared ring:ring_put:25: load i32 at 0x1000010 (ring:@ring+16) = 13
done 1972 0.2 ring.shared ring:ring_put:28: store i8 9 at 0x100000d (ring:@ring+13)
done 1973 0.2 ring.shared ring:ring_put:29: load i32 at 0x1000010 (ring:@ring+16) = 13
done 1974 0.2 ring.shared ring:ring_put:32: store i32 14 at 0x1000010 (ring:@ring+16)
done 1975 0.2 ring.shared ring:ring_put:33: store i32 0 at 0x3000000 (event 1960+0)
done 1976 0.2 ring.shared ring:ring_put:37: load i32 at 0x3000000 (event 1960+0) = 0
done 1977 0.2 ring.shared ring:ring_put:38: leaves 5 at 0x3000000
ends 1978 0.2 kernel script: ends: returned 0
done 1979 0.3 kernel script: calls ring:ring_take() enters ring:ring_take as ring.shared
done 1980 0.3 ring.shared ring:ring_take:58: alloca 4 at 0x3000000
done 1981 0.3 ring.shared ring:ring_take:59: alloca 1 at 0x3000004
done 1982 0.3 ring.shared ring:used:43: alloca 8 at 0x3000008
done 1983 0.3 ring.shared ring:used:44: store i64 0x1000000 at 0x3000008 (event 1982+0)
done 1984 0.3 ring.shared ring:used:45: load i64 at 0x3000008 (event 1982+0) = 0x1000000
done 1985 0.3 ring.shared ring:used:47: load i32 at 0x1000010 (ring:@ring+16) = 14
done 1986 0.3 ring.shared ring:used:48: load i64 at 0x3000008 (event 1982+0) = 0x1000000
done 1987 0.3 ring.shared ring:used:50: load i32 at 0x1000014 (ring:@ring+20) = 13
done 1988 0.3 ring.shared ring:used:53: leaves 11 at 0x3000005
done 1989 0.3 ring.shared ring:ring_take:69: load i32 at 0x1000014 (ring:@ring+20) = 13
done 1990 0.3 ring.shared ring:ring_take:72: load i8 at 0x100000d (ring:@ring+13) = 9
done 1991 0.3 ring.shared ring:ring_take:73: store i8 9 at 0x3000004 (event 1981+0)
done 1992 0.3 ring.shared ring:ring_take:74: load i32 at 0x1000014 (ring:@ring+20) = 13
done 1993 0.3 ring.shared ring:ring_take:77: store i32 14 at 0x1000014 (ring:@ring+20)
done 1994 0.3 ring.shared ring:ring_take:78: load i8 at 0x3000004 (event 1981+0) = 9
done 1995 0.3 ring.shared ring:ring_take:80: store i32 9 at 0x3000000 (event 1980+0)
done 1996 0.3 ring.shared ring:ring_take:84: load i32 at 0x3000000 (event 1980+0) = 9
done 1997 0.3 ring.shared ring:ring_take:85: leaves 5 at 0x3000000
ends 1998 0.3 kernel script: ends: returned 9
done 1999 0.4 kernel script: calls ring:ring_take() enters ring:ring_take as ring.shared
done 2000 0.4 ring.shared ring:ring_take:58: alloca 4 at 0x3000000
done 2001 0.4 ring.shared ring:ring_take:59: alloca 1 at 0x3000004
done 2002 0.4 ring.shared ring:used:43: alloca 8 at 0x3000008
done 2003 0.4 ring.shared ring:used:44: store i64 0x1000000 at 0x3000008 (event 2002+0)
done 2004 0.4 ring.shared ring:used:45: load i64 at 0x3000008 (event 2002+0) = 0x1000000
done 2005 0.4 ring.shared ring:used:47: load i32 at 0x1000010 (ring:@ring+16) = 14
done 2006 0.4 ring.shared ring:used:48: load i64 at 0x3000008 (event 2002+0) = 0x1000000
done 2007 0.4 ring.shared ring:used:50: load i32 at 0x1000014 (ring:@ring+20) = 14
done 2008 0.4 ring.shared ring:used:53: leaves 11 at 0x3000005
done 2009 0.4 ring.shared ring:ring_take:65: store i32 -1 at 0x3000000 (event 2000+0)
done 2010 0.4 ring.shared ring:ring_take:84: load i32 at 0x3000000 (event 2000+0) = -1
done 2011 0.4 ring.shared ring:ring_take:85: leaves 5 at 0x3000000
ends 2012 0.4 kernel script: ends: returned -1
done 2013 0.5 kernel script: calls sum:checksum_of_packet() enters sum:checksum_of_packet as sum.shared
done 2014 0.5 sum.shared sum:checksum:10: alloca 8 at 0x3000000
done 2015 0.5 sum.shared sum:checksum:11: alloca 4 at 0x3000008
done 2016 0.5 sum.shared sum:checksum:12: alloca 4 at 0x300000c
done 2017 0.5 sum.shared sum:checksum:13: alloca 4 at 0x3000010
done 2018 0.5 sum.shared sum:checksum:14: store i64 0x1000020 at 0x3000000 (event 2014+0)
done 2019 0.5 sum.shared sum:checksum:15: store i32 20 at 0x3000008 (event 2015+0)
done 2020 0.5 sum.shared sum:checksum:16: store i32 0 at 0x300000c (event 2016+0)
done 2021 0.5 sum.shared sum:checksum:17: store i32 0 at 0x3000010 (event 2017+0)
done 2022 0.5 sum.shared sum:checksum:21: load i32 at 0x3000010 (event 2017+0) = 0
done 2023 0.5 sum.shared sum:checksum:23: load i32 at 0x3000008 (event 2015+0) = 20
done 2024 0.5 sum.shared sum:checksum:28: load i32 at 0x300000c (event 2016+0) = 0
done 2025 0.5 sum.shared sum:checksum:29: load i64 at 0x3000000 (event 2014+0) = 0x1000020
done 2026 0.5 sum.shared sum:checksum:30: load i32 at 0x3000010 (event 2017+0) = 0
done 2027 0.5 sum.shared sum:checksum:33: load i8 at 0x1000020 (sum:@packet+0) = 69
done 2028 0.5 sum.shared sum:checksum:36: load i64 at 0x3000000 (event 2014+0) = 0x1000020
done 2029 0.5 sum.shared sum:checksum:37: load i32 at 0x3000010 (event 2017+0) = 0
done 2030 0.5 sum.shared sum:checksum:41: load i8 at 0x1000021 (sum:@packet+1) = 0
done 2031 0.5 sum.shared sum:folded:85: alloca 4 at 0x3000014
done 2032 0.5 sum.shared sum:folded:86: store i32 17664 at 0x3000014 (event 2031+0)
done 2033 0.5 sum.shared sum:folded:90: load i32 at 0x3000014 (event 2031+0) = 17664
done 2034 0.5 sum.shared sum:folded:105: load i32 at 0x3000014 (event 2031+0) = 17664
done 2035 0.5 sum.shared sum:folded:106: leaves 4 at 0x3000014
done 2036 0.5 sum.shared sum:checksum:46: store i32 17664 at 0x300000c (event 2016+0)
done 2037 0.5 sum.shared sum:checksum:50: load i32 at 0x3000010 (event 2017+0) = 0
done 2038 0.5 sum.shared sum:checksum:52: store i32 2 at 0x3000010 (event 2017+0)
done 2039 0.5 sum.shared sum:checksum:21: load i32 at 0x3000010 (event 2017+0) = 2
done 2040 0.5 sum.shared sum:checksum:23: load i32 at 0x3000008 (event 2015+0) = 20
done 2041 0.5 sum.shared sum:checksum:28: load i32 at 0x300000c (event 2016+0) = 17664
done 2042 0.5 sum.shared sum:checksum:29: load i64 at 0x3000000 (event 2014+0) = 0x1000020
done 2043 0.5 sum.shared sum:checksum:30: load i32 at 0x3000010 (event 2017+0) = 2
done 2044 0.5 sum.shared sum:checksum:33: load i8 at 0x1000022 (sum:@packet+2) = 0
done 2045 0.5 sum.shared sum:checksum:36: load i64 at 0x3000000 (event 2014+0) = 0x1000020
done 2046 0.5 sum.shared sum:checksum:37: load i32 at 0x3000010 (event 2017+0) = 2
done 2047 0.5 sum.shared sum:checksum:41: load i8 at 0x1000023 (sum:@packet+3) = 60
done 2048 0.5 sum.shared sum:folded:85: alloca 4 at 0x3000014
done 2049 0.5 sum.shared sum:folded:86: store i32 17724 at 0x3000014 (event 2048+0)
done 2050 0.5 sum.shared sum:folded:90: load i32 at 0x3000014 (event 2048+0) = 17724
done 2051 0.5 sum.shared sum:folded:105: load i32 at 0x3000014 (event 2048+0) = 17724
done 2052 0.5 sum.shared sum:folded:106: leaves 4 at 0x3000014
done 2053 0.5 sum.shared sum:checksum:46: store i32 17724 at 0x300000c (event 2016+0)
done 2054 0.5 sum.shared sum:checksum:50: load i32 at 0x3000010 (event 2017+0) = 2
done 2055 0.5 sum.shared sum:checksum:52: store i32 4 at 0x3000010 (event 2017+0)
done 2056 0.5 sum.shared sum:checksum:21: load i32 at 0x3000010 (event 2017+0) = 4
done 2057 0.5 sum.shared sum:checksum:23: load i32 at 0x3000008 (event 2015+0) = 20
done 2058 0.5 sum.shared sum:checksum:28: load i32 at 0x300000c (event 2016+0) = 17724
done 2059 0.5 sum.shared sum:checksum:29: load i64 at 0x3000000 (event 2014+0) = 0x1000020
done 2060 0.5 sum.shared sum:checksum:30: load i32 at 0x3000010 (event 2017+0) = 4
done 2061 0.5 sum.shared sum:checksum:33: load i8 at 0x1000024 (sum:@packet+4) = 28
done 2062 0.5 sum.shared sum:checksum:36: load i64 at 0x3000000 (event 2014+0) = 0x1000020
done 2063 0.5 sum.shared sum:checksum:37: load i32 at 0x3000010 (event 2017+0) = 4
done 2064 0.5 sum.shared sum:checksum:41: load i8 at 0x1000025 (sum:@packet+5) = 70
done 2065 0.5 sum.shared sum:folded:85: alloca 4 at 0x3000014
done 2066 0.5 sum.shared sum:folded:86: store i32 24962 at 0x3000014 (event 2065+0)
done 2067 0.5 sum.shared sum:folded:90: load i32 at 0x3000014 (event 2065+0) = 24962
done 2068 0.5 sum.shared sum:folded:105: load i32 at 0x3000014 (event 2065+0) = 24962
done 2069 0.5 sum.shared sum:folded:106: leaves 4 at 0x3000014
done 2070 0.5 sum.shared sum:checksum:46: store i32 24962 at 0x300000c (event 2016+0)
done 2071 0.5 sum.shared sum:checksum:50: load i32 at 0x3000010 (event 2017+0) = 4
done 2072 0.5 sum.shared sum:checksum:52: store i32 6 at 0x3000010 (event 2017+0)
done 2073 0.5 sum.shared sum:checksum:21: load i32 at 0x3000010 (event 2017+0) = 6
done 2074 0.5 sum.shared sum:checksum:23: load i32 at 0x3000008 (event 2015+0) = 20
done 2075 0.5 sum.shared sum:checksum:28: load i32 at 0x300000c (event 2016+0) = 24962
done 2076 0.5 sum.shared sum:checksum:29: load i64 at 0x3000000 (event 2014+0) = 0x1000020
done 2077 0.5 sum.shared sum:checksum:30: load i32 at 0x3000010 (event 2017+0) = 6
done 2078 0.5 sum.shared sum:checksum:33: load i8 at 0x1000026 (sum:@packet+6) = 64
done 2079 0.5 sum.shared sum:checksum:36: load i64 at 0x3000000 (event 2014+0) = 0x1000020
done 2080 0.5 sum.shared sum:checksum:37: load i32 at 0x3000010 (event 2017+0) = 6
done 2081 0.5 sum.shared sum:checksum:41: load i8 at 0x1000027 (sum:@packet+7) = 0
done 2082 0.5 sum.shared sum:folded:85: alloca 4 at 0x3000014
done 2083 0.5 sum.shared sum:folded:86: store i32 41346 at 0x3000014 (event 2082+0)
done 2084 0.5 sum.shared sum:folded:90: load i32 at 0x3000014 (event 2082+0) = 41346
done 2085 0.5 sum.shared sum:folded:105: load i32 at 0x3000014 (event 2082+0) = 41346
done 2086 0.5 sum.shared sum:folded:106: leaves 4 at 0x3000014
done 2087 0.5 sum.shared sum:checksum:46: store i32 41346 at 0x300000c (event 2016+0)
done 2088 0.5 sum.shared sum:checksum:50: load i32 at 0x3000010 (event 2017+0) = 6
done 2089 0.5 sum.shared sum:checksum:52: store i32 8 at 0x3000010 (event 2017+0)
done 2090 0.5 sum.shared sum:checksum:21: load i32 at 0x3000010 (event 2017+0) = 8
done 2091 0.5 sum.shared sum:checksum:23: load i32 at 0x3000008 (event 2015+0) = 20
done 2092 0.5 sum.shared sum:checksum:28: load i32 at 0x300000c (event 2016+0) = 41346
done 2093 0.5 sum.shared sum:checksum:29: load i64 at 0x3000000 (event 2014+0) = 0x1000020
done 2094 0.5 sum.shared sum:checksum:30: load i32 at 0x3000010 (event 2017+0) = 8
done 2095 0.5 sum.shared sum:checksum:33: load i8 at 0x1000028 (sum:@packet+8) = 64
done 2096 0.5 sum.shared sum:checksum:36: load i64 at 0x3000000 (event 2014+0) = 0x1000020
done 2097 0.5 sum.shared sum:checksum:37: load i32 at 0x3000010 (event 2017+0) = 8
done 2098 0.5 sum.shared sum:checksum:41: load i8 at 0x1000029 (sum:@packet+9) = 6
done 2099 0.5 sum.shared sum:folded:85: alloca 4 at 0x3000014
done 2100 0.5 sum.shared sum:folded:86: store i32 57736 at 0x3000014 (event 2099+0)
done 2101 0.5 sum.shared sum:folded:90: load i32 at 0x3000014 (event 2099+0) = 57736
done 2102 0.5 sum.shared sum:folded:105: load i32 at 0x3000014 (event 2099+0) = 57736
done 2103 0.5 sum.shared sum:folded:106: leaves 4 at 0x3000014
done 2104 0.5 sum.shared sum:checksum:46: store i32 57736 at 0x300000c (event 2016+0)
done 2105 0.5 sum.shared sum:checksum:50: load i32 at 0x3000010 (event 2017+0) = 8
done 2106 0.5 sum.shared sum:checksum:52: store i32 10 at 0x3000010 (event 2017+0)
done 2107 0.5 sum.shared sum:checksum:21: load i32 at 0x3000010 (event 2017+0) = 10
done 2108 0.5 sum.shared sum:checksum:23: load i32 at 0x3000008 (event 2015+0) = 20
done 2109 0.5 sum.shared sum:checksum:28: load i32 at 0x300000c (event 2016+0) = 57736
done 2110 0.5 sum.shared sum:checksum:29: load i64 at 0x3000000 (event 2014+0) = 0x1000020
done 2111 0.5 sum.shared sum:checksum:30: load i32 at 0x3000010 (event 2017+0) = 10
done 2112 0.5 sum.shared sum:checksum:33: load i8 at 0x100002a (sum:@packet+10) = 0
done 2113 0.5 sum.shared sum:checksum:36: load i64 at 0x3000000 (event 2014+0) = 0x1000020
done 2114 0.5 sum.shared sum:checksum:37: load i32 at 0x3000010 (event 2017+0) = 10
done 2115 0.5 sum.shared sum:checksum:41: load i8 at 0x100002b (sum:@packet+11) = 0
done 2116 0.5 sum.shared sum:folded:85: alloca 4 at 0x3000014
done 2117 0.5 sum.shared sum:folded:86: store i32 57736 at 0x3000014 (event 2116+0)
done 2118 0.5 sum.shared sum:folded:90: load i32 at 0x3000014 (event 2116+0) = 57736
done 2119 0.5 sum.shared sum:folded:105: load i32 at 0x3000014 (event 2116+0) = 57736
done 2120 0.5 sum.shared sum:folded:106: leaves 4 at 0x3000014
done 2121 0.5 sum.shared sum:checksum:46: store i32 57736 at 0x300000c (event 2016+0)
done 2122 0.5 sum.shared sum:checksum:50: load i32 at 0x3000010 (event 2017+0) = 10
done 2123 0.5 sum.shared sum:checksum:52: store i32 12 at 0x3000010 (event 2017+0)
done 2124 0.5 sum.shared sum:checksum:21: load i32 at 0x3000010 (event 2017+0) = 12
done 2125 0.5 sum.shared sum:checksum:23: load i32 at 0x3000008 (event 2015+0) = 20
done 2126 0.5 sum.shared sum:checksum:28: load i32 at 0x300000c (event 2016+0) = 57736
done 2127 0.5 sum.shared sum:checksum:29: load i64 at 0x3000000 (event 2014+0) = 0x1000020
done 2128 0.5 sum.shared sum:checksum:30: load i32 at 0x3000010 (event 2017+0) = 12
done 2129 0.5 sum.shared sum:checksum:33: load i8 at 0x100002c (sum:@packet+12) = -84
done 2130 0.5 sum.shared sum:checksum:36: load i64 at 0x3000000 (event 2014+0) = 0x1000020
done 2131 0.5 sum.shared sum:checksum:37: load i32 at 0x3000010 (event 2017+0) = 12
done 2132 0.5 sum.shared sum:checksum:41: load i8 at 0x100002d (sum:@packet+13) = 16
done 2133 0.5 sum.shared sum:folded:85: alloca 4 at 0x3000014
done 2134 0.5 sum.shared sum:folded:86: store i32 101784 at 0x3000014 (event 2133+0)
done 2135 0.5 sum.shared sum:folded:90: load i32 at 0x3000014 (event 2133+0) = 101784
done 2136 0.5 sum.shared sum:folded:96: load i32 at 0x3000014 (event 2133+0) = 101784
done 2137 0.5 sum.shared sum:folded:98: load i32 at 0x3000014 (event 2133+0) = 101784
done 2138 0.5 sum.shared sum:folded:101: store i32 36249 at 0x3000014 (event 2133+0)
done 2139 0.5 sum.shared sum:folded:90: load i32 at 0x3000014 (event 2133+0) = 36249
done 2140 0.5 sum.shared sum:folded:105: load i32 at 0x3000014 (event 2133+0) = 36249
done 2141 0.5 sum.shared sum:folded:106: leaves 4 at 0x3000014
done 2142 0.5 sum.shared sum:checksum:46: store i32 36249 at 0x300000c (event 2016+0)
done 2143 0.5 sum.shared sum:checksum:50: load i32 at 0x3000010 (event 2017+0) = 12
done 2144 0.5 sum.shared sum:checksum:52: store i32 14 at 0x3000010 (event 2017+0)
done 2145 0.5 sum.shared sum:checksum:21: load i32 at 0x3000010 (event 2017+0) = 14
done 2146 0.5 sum.shared sum:checksum:23: load i32 at 0x3000008 (event 2015+0) = 20
done 2147 0.5 sum.shared sum:checksum:28: load i32 at 0x300000c (event 2016+0) = 36249
done 2148 0.5 sum.shared sum:checksum:29: load i64 at 0x3000000 (event 2014+0) = 0x1000020
done 2149 0.5 sum.shared sum:checksum:30: load i32 at 0x3000010 (event 2017+0) = 14
done 2150 0.5 sum.shared sum:checksum:33: load i8 at 0x100002e (sum:@packet+14) = 10
done 2151 0.5 sum.shared sum:checksum:36: load i64 at 0x3000000 (event 2014+0) = 0x1000020
done 2152 0.5 sum.shared sum:checksum:37: load i32 at 0x3000010 (event 2017+0) = 14
done 2153 0.5 sum.shared sum:checksum:41: load i8 at 0x100002f (sum:@packet+15) = 99
done 2154 0.5 sum.shared sum:folded:85: alloca 4 at 0x3000014
done 2155 0.5 sum.shared sum:folded:86: store i32 38908 at 0x3000014 (event 2154+0)
done 2156 0.5 sum.shared sum:folded:90: load i32 at 0x3000014 (event 2154+0) = 38908
done 2157 0.5 sum.shared sum:folded:105: load i32 at 0x3000014 (event 2154+0) = 38908
done 2158 0.5 sum.shared sum:folded:106: leaves 4 at 0x3000014
done 2159 0.5 sum.shared sum:checksum:46: store i32 38908 at 0x300000c (event 2016+0)
done 2160 0.5 sum.shared sum:checksum:50: load i32 at 0x3000010 (event 2017+0) = 14
done 2161 0.5 sum.shared sum:checksum:52: store i32 16 at 0x3000010 (event 2017+0)
done 2162 0.5 sum.shared sum:checksum:21: load i32 at 0x3000010 (event 2017+0) = 16
done 2163 0.5 sum.shared sum:checksum:23: load i32 at 0x3000008 (event 2015+0) = 20
done 2164 0.5 sum.shared sum:checksum:28: load i32 at 0x300000c (event 2016+0) = 38908
done 2165 0.5 sum.shared sum:checksum:29: load i64 at 0x3000000 (event 2014+0) = 0x1000020
done 2166 0.5 sum.shared sum:checksum:30: load i32 at 0x3000010 (event 2017+0) = 16
done 2167 0.5 sum.shared sum:checksum:33: load i8 at 0x1000030 (sum:@packet+16) = -84
done 2168 0.5 sum.shared sum:checksum:36: load i64 at 0x3000000 (event 2014+0) = 0x1000020
done 2169 0.5 sum.shared sum:checksum:37: load i32 at 0x3000010 (event 2017+0) = 16
done 2170 0.5 sum.shared sum:checksum:41: load i8 at 0x1000031 (sum:@packet+17) = 16
done 2171 0.5 sum.shared sum:folded:85: alloca 4 at 0x3000014
done 2172 0.5 sum.shared sum:folded:86: store i32 82956 at 0x3000014 (event 2171+0)
done 2173 0.5 sum.shared sum:folded:90: load i32 at 0x3000014 (event 2171+0) = 82956
done 2174 0.5 sum.shared sum:folded:96: load i32 at 0x3000014 (event 2171+0) = 82956
done 2175 0.5 sum.shared sum:folded:98: load i32 at 0x3000014 (event 2171+0) = 82956
done 2176 0.5 sum.shared sum:folded:101: store i32 17421 at 0x3000014 (event 2171+0)
done 2177 0.5 sum.shared sum:folded:90: load i32 at 0x3000014 (event 2171+0) = 17421
done 2178 0.5 sum.shared sum:folded:105: load i32 at 0x3000014 (event 2171+0) = 17421
done 2179 0.5 sum.shared sum:folded:106: leaves 4 at 0x3000014
done 2180 0.5 sum.shared sum:checksum:46: store i32 17421 at 0x300000c (event 2016+0)
done 2181 0.5 sum.shared sum:checksum:50: load i32 at 0x3000010 (event 2017+0) = 16
done 2182 0.5 sum.shared sum:checksum:52: store i32 18 at 0x3000010 (event 2017+0)
done 2183 0.5 sum.shared sum:checksum:21: load i32 at 0x3000010 (event 2017+0) = 18
done 2184 0.5 sum.shared sum:checksum:23: load i32 at 0x3000008 (event 2015+0) = 20
done 2185 0.5 sum.shared sum:checksum:28: load i32 at 0x300000c (event 2016+0) = 17421
done 2186 0.5 sum.shared sum:checksum:29: load i64 at 0x3000000 (event 2014+0) = 0x1000020
done 2187 0.5 sum.shared sum:checksum:30: load i32 at 0x3000010 (event 2017+0) = 18
done 2188 0.5 sum.shared sum:checksum:33: load i8 at 0x1000032 (sum:@packet+18) = 10
done 2189 0.5 sum.shared sum:checksum:36: load i64 at 0x3000000 (event 2014+0) = 0x1000020
done 2190 0.5 sum.shared sum:checksum:37: load i32 at 0x3000010 (event 2017+0) = 18
done 2191 0.5 sum.shared sum:checksum:41: load i8 at 0x1000033 (sum:@packet+19) = 12
done 2192 0.5 sum.shared sum:folded:85: alloca 4 at 0x3000014
done 2193 0.5 sum.shared sum:folded:86: store i32 19993 at 0x3000014 (event 2192+0)
done 2194 0.5 sum.shared sum:folded:90: load i32 at 0x3000014 (event 2192+0) = 19993
done 2195 0.5 sum.shared sum:folded:105: load i32 at 0x3000014 (event 2192+0) = 19993
done 2196 0.5 sum.shared sum:folded:106: leaves 4 at 0x3000014
done 2197 0.5 sum.shared sum:checksum:46: store i32 19993 at 0x300000c (event 2016+0)
done 2198 0.5 sum.shared sum:checksum:50: load i32 at 0x3000010 (event 2017+0) = 18
done 2199 0.5 sum.shared sum:checksum:52: store i32 20 at 0x3000010 (event 2017+0)
done 2200 0.5 sum.shared sum:checksum:21: load i32 at 0x3000010 (event 2017+0) = 20
done 2201 0.5 sum.shared sum:checksum:23: load i32 at 0x3000008 (event 2015+0) = 20
done 2202 0.5 sum.shared sum:checksum:56: load i32 at 0x3000008 (event 2015+0) = 20
done 2203 0.5 sum.shared sum:checksum:77: load i32 at 0x300000c (event 2016+0) = 19993
done 2204 0.5 sum.shared sum:checksum:80: leaves 20 at 0x3000000
done 2205 0.5 sum.shared sum:checksum_of_packet:113: leaves 0 at 0x3000000
ends 2206 0.5 kernel script: ends: returned 45542
"#
}
